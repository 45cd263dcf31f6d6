// What `settle --help` prints.
pub const HELP: &str = "\
usage: settle [FILE]

Runs the script in FILE, or the one on standard input, and prints its key.
One command a line; `#` starts a comment. The commands:

  open YEAR MONTH PARTICIPANTS RULE [MONEY-LINES DEMAND-LINES]
  post CODE PARTICIPANT PAGE INTERVAL CENTS
  meter PARTICIPANT PAGE INTERVAL KWH
  adjust CODE PARTICIPANT PAGE INTERVAL CENTS
  allocate CODE PAGE INTERVAL [PLACES]
  strike PAGE
  allot PAGE [PLACES]
  withdraw PAGE
  subtotal system|adjustment CODE PARTICIPANT PAGE INTERVAL
  interval CODE PARTICIPANT PAGE INTERVAL
  code CODE PARTICIPANT PAGE
  group GROUP PARTICIPANT PAGE
  parent PARENT PARTICIPANT PAGE
  settlement PARTICIPANT PAGE
  month PARTICIPANT
  balance
  share RULE AMOUNT WEIGHT...

RULE is nearest, largest-remainder or running-carry. Page 0 is the month's own
page. docs/SCRIPT.md has the whole format, docs/RULES.md the rules.
";
