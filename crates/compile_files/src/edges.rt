// What a long answer prints instead of its lists, and the edges of what a call is lent.
ghost use Rattle.std.specs.Prelude.{◌≡◌, ◌<◌, ◌+◌, ◌*◌, ◌%◌};
ghost use Rattle.std.specs.List.{fold};

use listing_text::LIST_WORDS;
use rascal::compile;
use refusal::Refusal;
use std::io;
use std::io::Write;

// The bytes as one number.
fn sum(bytes: &[u8]) -> u16
    ensures value { result ≡ fold (λ sum byte. (sum * 31 + byte) % 65521) 1 bytes.now }
    ensures upper_bound { result < 65521 }
{
    bytes.iter().fold(1, |sum: u16, byte| {
        ((u32::from(sum) * 31 + u32::from(*byte)) % 65521) as u16
    })
}

// A line with the length and the sum of the output: one `writeln!`, for which a Display would need a struct of its own.
pub fn put_sum<W: Write>(bytes: &[u8], out: &mut W) -> io::Result<()> {
    writeln!(out, "length {} sum {}", bytes.len(), sum(bytes))
}

// Of a file whose bytes fill the output: a line only where the output does not suffice, one byte less is not refusal 12, or a list slice of 16,383 words
// is not 13. What a call is lent is three slices, as `compile` takes them, and a struct of them would be taken apart at each call.
pub fn put_edges<W: Write>(
    file: &[u8],
    list: &mut [u32],
    output: &mut [u8],
    out: &mut W,
) -> io::Result<()> {
    let Some(less) = output.len().checked_sub(1) else {
        return writeln!(out, "no bytes");
    };
    if compile(file, list, output).is_err() {
        return writeln!(out, "an exact output is refused");
    }
    if compile(file, list, &mut output[..less]) != Err(Refusal::ShortOutput) {
        return writeln!(out, "a short output is not 12");
    }
    let few = list.len().min(LIST_WORDS - 1);
    if compile(file, &mut list[..few], output) != Err(Refusal::ShortList) {
        return writeln!(out, "a short list slice is not 13");
    }
    Ok(())
}
