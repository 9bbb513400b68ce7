// The edges of the network as they are gathered: of each the thirteen bytes of its record but for its label's body, which is
// copied from the chart's file later. The table is lent down the walk over the places; 1,025 edges stand for too many.

ghost use Rattle.std.specs.Prelude.{◌≡◌, [], ◌∷◌};
ghost use Rattle.network_records.specs.Network.{Edge};
ghost use Rattle.flatten_edges.specs.Gathering.{head_of, head_bytes};
ghost use Rattle.flatten_edges.specs.Adding.{Adds};

// The fields of an edge's record, up to the body of its label.
#[derive(Clone, Copy)]
pub struct Head {
    pub source: u8,
    pub target: u8,
    pub transition: u8,
    pub exit: u8,
    pub tested: u16,
    pub needed: u16,
    pub written: u8,
    pub values: u8,
    pub signal: u8,
    pub channel: u8,
    pub resets: u8,
}

impl Head {
    pub const SIZE: usize = 13;
}

// Its bytes.
fn bytes_of(h: Head) -> [u8; 13]
    ensures { result ≡ head_bytes h }
{
    [
        h.source,
        h.target,
        h.transition,
        h.exit,
        (h.tested / 256 % 256) as u8,
        (h.tested % 256) as u8,
        (h.needed / 256 % 256) as u8,
        (h.needed % 256) as u8,
        h.written,
        h.values,
        h.signal,
        h.channel,
        h.resets,
    ]
}

// One more edge after the first `count`; 1025 if there is no place for it.
pub fn push(heads: &mut [u8; 13312], count: u16, h: Head) -> u16
    ensures { (e : Edge) → h ≡ head_of e → Adds heads.old count heads.new result (e ∷ []) }
{
    if count >= 1024 {
        return 1025;
    }
    let at = Head::SIZE * (count as usize);
    heads[at..at + Head::SIZE].copy_from_slice(&bytes_of(h));
    count + 1
}
