// The number that a field spells.
ghost use Rattle.std.specs.Prelude.{◌≡◌};
ghost use Rattle.lines.specs.Numbers.{number_of};

const MOST_DIGITS: usize = 9;

// 1 to 9 digits and no leading zero; 0 alone is a number.
#[tactic(auto, using(crate::proofs::Spelling::short))]
pub fn number(text: &[u8]) -> Option<u32>
    ensures { result ≡ number_of text.now }
{
    if matches!(text, [] | [b'0', _, ..]) || text.len() > MOST_DIGITS {
        return None;
    }
    let mut value = 0;
    for digit in text {
        if !digit.is_ascii_digit() {
            return None;
        }
        value = value * 10 + u32::from(digit - b'0');
    }
    Some(value)
}
