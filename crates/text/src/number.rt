// Whole numbers in decimal, as a script writes them and as a key shows them.
// A `-` stands before a negative number; there is no `+` and no other sign in a number.
ghost use Rattle.std.specs.Prelude.{◌≡◌, ◌+◌, ◌-◌, ◌%◌, ◌^◌, [], ◌∷◌, ◌++◌, decimal, OnOk};
ghost use Rattle.std.specs.Fmt.{signed_decimal};
ghost use Rattle.text.specs.Numbers.{numeral, unsigned_number, signed_number};

use std::alloc::AllocError;

// The number that the digits write, where it fits 64 bits.
// No `parse`: that reads text, which the bytes of a word need not be, and takes a `+`, which no number here has.
#[tactic(auto, using(crate::proofs::Reading::reading))]
fn read_numeral(word: &[u8]) -> Option<u64>
    ensures { result ≡ numeral (2 ^ 64 - 1) word.now }
{
    if word.is_empty() {
        return None;
    }
    let mut number: u64 = 0;
    for byte in word {
        let digit = char::from(*byte).to_digit(10)?;
        number = number.checked_mul(10)?.checked_add(u64::from(digit))?;
    }
    Some(number)
}

// The number of a word that writes one from 0 to 4294967295.
pub fn read_unsigned(word: &[u8]) -> Option<u32>
    ensures { result ≡ unsigned_number word.now }
{
    u32::try_from(read_numeral(word)?).ok()
}

// The number of a word that writes one of 64 bits with a sign.
pub fn read_signed(word: &[u8]) -> Option<i64>
    ensures { result ≡ signed_number word.now }
{
    match word {
        // the lowest number has no counterpart above 0
        [b'-', digits @ ..] => 0i64.checked_sub_unsigned(read_numeral(digits)?),
        digits => i64::try_from(read_numeral(digits)?).ok(),
    }
}

fn last_digit(number: u64) -> u8
    ensures { result ≡ 48 + number % 10 }
{
    b'0' + (number % 10) as u8
}

// No `write!`: to a list of bytes that takes a multiple of the time, and the key has a number in each line.
pub fn push_unsigned(out: &mut Vec<u8>, number: u64) -> Result<(), AllocError>
    ensures { OnOk result (out.new.items ≡ out.old.items ++ decimal number) }
{
    if number >= 10 {
        push_unsigned(out, number / 10)?;
    }
    out.push(last_digit(number))?;
    Ok(())
}

fn push_minus(out: &mut Vec<u8>) -> Result<(), AllocError>
    ensures { OnOk result (out.new.items ≡ out.old.items ++ 45 ∷ []) }
{
    out.push(b'-')?;
    Ok(())
}

pub fn push_signed(out: &mut Vec<u8>, number: i64) -> Result<(), AllocError>
    ensures { OnOk result (out.new.items ≡ out.old.items ++ signed_decimal number) }
{
    if number < 0 {
        push_minus(out)?;
    }
    push_unsigned(out, number.unsigned_abs())
}
