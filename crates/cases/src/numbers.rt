ghost use Rattle.std.specs.Prelude.{◌≡◌, ◌++◌, replicate, IfOk, OnOk};
ghost use Rattle.cases.specs.Numbers.{word_numbers, SaysNumbers};

use std::alloc::{AllocFailed, Global};
use std::num::ParseIntError;

// How often a number comes, and the number.
fn times_and_number(word: &str) -> Result<(u16, u16), ParseIntError>
    ensures { IfOk result (λ r. word_numbers word.now ≡ replicate r.0 r.1) }
{
    let Some((times, number)) = word.split_once('*') else {
        return Ok((1, word.parse::<u16>()?));
    };
    let number = number.parse::<u16>()?;
    Ok((times.parse::<u16>()?, number))
}

// The number once more, so many times: one by one, since `resize` and `extend` fill all the room that is left.
fn push_times(numbers: &mut Vec<u16>, times: u16, number: u16) -> Result<(), AllocFailed<u16>>
    ensures { OnOk result (numbers.new.items ≡ numbers.old.items ++ replicate times number) }
{
    for _ in 0..times {
        numbers.push(number)?;
    }
    Ok(())
}

// Numbers by spaces, where `N*C` is the number C N times.
pub fn parse_numbers(heap: Global, text: &str) -> anyhow::Result<Vec<u16>>
    ensures { IfOk result (λ numbers. SaysNumbers text.now numbers.items) }
{
    let mut numbers = Vec::new(heap);
    for word in text.split_whitespace() {
        let (times, number) = times_and_number(word)?;
        push_times(&mut numbers, times, number)?;
    }
    Ok(numbers)
}
