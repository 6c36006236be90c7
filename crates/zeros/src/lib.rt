#![tactic(auto, unfolding(list_slice::specs::Words::zeros_of))]

// Slices cleared: what the calls do before they write, and what a refusal leaves. Two functions of one line each and not one: over any type of element a
// contract cannot say that the elements are the number 0, and a trait that says it for the two types would be longer than both. That a slice is cleared
// stays a clause of those who begin with one, and no type: the first word that is written ends it.
ghost use Rattle.std.specs.Prelude.{◌≡◌, length};
ghost use Rattle.list_slice.specs.Words.{zeros_of};

pub fn clear_words(words: &mut [u32])
    ensures { words.new ≡ zeros_of (length words.old) }
{
    words.fill(0);
}

pub fn clear_bytes(bytes: &mut [u8])
    ensures { bytes.new ≡ zeros_of (length bytes.old) }
{
    bytes.fill(0);
}
