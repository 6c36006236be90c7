#![tactic(auto)]

ghost use Rattle.std.specs.Prelude.{◌≡◌, ◌∷◌};
ghost use Rattle.special_properties.specs.SpecialProperties.{get_special_property, same_bytes, null, undefined};

// The properties' names by number, without the underscore that each begins with.
static NAMES: [&[u8]; 22] = [
    b"x",
    b"y",
    b"xscale",
    b"yscale",
    b"currentframe",
    b"totalframes",
    b"alpha",
    b"visible",
    b"width",
    b"height",
    b"rotation",
    b"target",
    b"framesloaded",
    b"name",
    b"droptarget",
    b"url",
    b"highquality",
    b"focusrect",
    b"soundbuftime",
    b"quality",
    b"xmouse",
    b"ymouse",
];

// The number of the property whose name is an underscore and these letters: the first name that agrees, ASCII case ignored. No TryFrom, whose error would say no
// more than None.
fn number_of(letters: &[u8]) -> Option<u32>
    ensures { result ≡ get_special_property (95 ∷ letters.now) }
{
    'names: for (i, property) in NAMES.iter().enumerate() {
        if property.len() != letters.len() {
            continue 'names;
        }
        for (k, letter) in letters.iter().enumerate() {
            if letter.to_ascii_lowercase() != property[k].to_ascii_lowercase() {
                continue 'names;
            }
        }
        return Some(i as u32);
    }
    None
}

// The number of the first property whose name agrees, ASCII case ignored.
pub fn get_special_property(name: &[u8]) -> Option<u32>
    ensures { result ≡ get_special_property name.now }
{
    match name {
        [first, letters @ ..] if *first == b'_' => number_of(letters),
        _ => None,
    }
}

// The library's `==`, promised in the words that the definitions of lowering use: a caller that wrote `==` would have to show that the two agree.
#[tactic(auto, using(crate::proofs::Laws::bytes_compared))]
pub fn same_bytes(a: &[u8], b: &[u8]) -> bool
    ensures { result ≡ same_bytes a.now b.now }
{
    a == b
}

// A function for each fixed name, of one call: with the name as an argument a caller would write the comparison itself.
pub fn is_null(name: &[u8]) -> bool
    ensures { result ≡ same_bytes name.now null }
{
    same_bytes(name, b"null")
}

pub fn is_undefined(name: &[u8]) -> bool
    ensures { result ≡ same_bytes name.now undefined }
{
    same_bytes(name, b"undefined")
}
