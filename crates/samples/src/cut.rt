// Reads the bytes of a file in bursts.
use bursts::{KEPT, Taken};

// So that words are cut at every place, and of a longer file a burst lies across the last byte that is kept.
const BURST: usize = 7;

// What the bytes read as. The last burst is a shorter one, or of nothing.
pub fn read(file: &[u8]) -> Taken {
    let mut kept = [0u8; KEPT];
    let mut seen = bursts::begin(&mut kept);
    let whole = file.chunks_exact(BURST);
    let last = whole.remainder();
    for burst in whole {
        seen = bursts::offer(&mut kept, seen, burst).seen;
    }
    seen = bursts::offer(&mut kept, seen, last).seen;
    bursts::end(&kept, seen)
}
