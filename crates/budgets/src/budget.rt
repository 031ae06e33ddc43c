//! Budgets in words.
ghost use Rattle.std.specs.Prelude.{◌≡◌};
ghost use Rattle.budgets.specs.Budget.{budget_of, number_in};

/// The number that a word of 1 to 8 decimal digits is, from 1 to 10,000,000; None for any other word.
pub fn budget_of(word: &[u8]) -> Option<u32>
    ensures { result ≡ budget_of word.now }
{
    if 1 <= word.len() && word.len() <= 8 {
        number_in(word)
    } else {
        None
    }
}

// The number that digits are, from 1 to 10,000,000.
fn number_in(digits: &[u8]) -> Option<u32>
    ensures { result ≡ number_in digits.now }
{
    let mut number = 0u32;
    for digit in digits {
        if *digit < b'0' || b'9' < *digit {
            return None;
        }
        number = number * 10 + u32::from(*digit - b'0');
        if number > 10_000_000 {
            return None;
        }
    }
    if number == 0 { None } else { Some(number) }
}
