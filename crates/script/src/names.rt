// Words of the format that stand for a value, in tables: a table is searched by a word.
ghost use Rattle.std.specs.Prelude.{◌≡◌};
ghost use Rattle.script.specs.Names.{meaning};

use text::is_spelt;

// The value beside the first name that the word is spelt as.
// Inlined at each table, so that a name there is compared as a constant.
#[inline(always)]
pub fn meaning_of<T: Copy>(word: &[u8], table: &[(&str, T)]) -> Option<T>
    ensures { result ≡ meaning word.now table.now }
{
    for (name, value) in table {
        if is_spelt(word, name) {
            return Some(*value);
        }
    }
    None
}
