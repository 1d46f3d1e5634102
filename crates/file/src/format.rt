// The numbers and the sizes of the format that reading and writing share.
ghost use Rattle.std.specs.Prelude.{◌≡◌};
ghost use Rattle.file.specs.Format.{entry_at, body_bytes};

// The first word, in the file's own order.
pub(crate) const MARK: u32 = 0x01020304;

// The version of the format.
pub(crate) const VERSION: u32 = 1;

// The bytes of the header, and of an entry of the contents.
pub(crate) const HEADER: usize = 16;

pub(crate) const ENTRY: usize = 8;

// Where the contents entry of a class stands; of the class past the last, the end of the contents.
pub(crate) fn entry_at(class: u32) -> usize
    ensures { result ≡ entry_at class }
{
    HEADER + ENTRY * (class as usize)
}

// The bytes of a body of a kind; of an unknown kind, none.
// Stays: a kind is a word of the file here, known or not, and `body_bytes` of Format is by that number; the enum is `Curve`.
pub(crate) fn body_bytes(kind: u32) -> u32
    ensures { result ≡ body_bytes kind }
{
    match kind {
        0 => 12,
        1 => 16,
        2 => 24,
        3 => 20,
        _ => 0,
    }
}
