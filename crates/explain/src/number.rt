// Numbers as they are written in decimal digits.
ghost use Rattle.std.specs.Prelude.{◌^◌, ◌<◌};
ghost use Rattle.std.specs.Option.{SomeIff};
ghost use Rattle.explain.specs.Numerals.{Digit, Numeral, value, then_digit};

// The number whose digits are those of `n` and then `b`; none where `b` is no digit or 64 bits do not hold it.
fn then_digit(n: usize, b: u8) -> Option<usize>
    ensures { SomeIff result (Digit b × (then_digit n b < 2 ^ 64)) (then_digit n b) }
{
    if !b.is_ascii_digit() {
        return None;
    }
    n.checked_mul(10)?.checked_add((b - b'0') as usize)
}

// The value of a word of digits; none where it is no number, or one that 64 bits do not hold.
pub fn parse_number(word: &[u8]) -> Option<usize>
    ensures { SomeIff result (Numeral word.now) (value word.now) }
{
    if word.is_empty() {
        return None;
    }
    word.iter().try_fold(0, |n, b| then_digit(n, *b))
}
