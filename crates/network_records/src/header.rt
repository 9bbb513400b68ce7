// The header of a network file: the version, the length of the rest in four bytes, and the counts.
ghost use Rattle.std.specs.Prelude.{◌≡◌};
ghost use Rattle.labels.specs.Label.{limits};
ghost use Rattle.network_records.specs.Network.{in_range, headed, counts_at, counts_of};
ghost use Rattle.network_records.specs.Headers.{header_of, HeaderFits};

use labels::label::Limits;

#[derive(Clone, Copy)]
pub struct Counts {
    pub version: u8,
    pub automata: u8,
    pub locations: u8,
    pub edges: u16,
    pub clocks: u8,
    pub variables: u8,
    pub rendezvous: u8,
    pub broadcasts: u8,
}

impl Counts {
    // What the labels of the file may hold.
    pub fn limits(self) -> Limits
        ensures { result ≡ limits self.version self.clocks self.variables }
    {
        Limits {
            version: self.version,
            clocks: self.clocks,
            variables: self.variables,
        }
    }
}

fn in_range(k: Counts) -> bool
    ensures { result ≡ in_range k }
{
    let channels = (k.rendezvous <= 16) & (k.broadcasts <= 144);
    let values = (k.clocks <= 8) & ((k.variables <= 16) & channels);
    let records = (1 <= k.locations) & ((k.locations <= 192) & ((k.edges <= 1024) & values));
    (1 <= k.automata) & ((k.automata <= 16) & records)
}

// A version and the right length.
fn headed(file: &[u8]) -> bool
    ensures { result ≡ headed file.now }
{
    if file.len() < 13 {
        return false;
    }
    let length = reading::field::word_of(file[1], file[2], file[3], file[4]);
    reading::version::is_version(file[0]) & (length as usize == file.len() - 5)
}

fn counts_at(file: &[u8]) -> Counts
    ensures { result ≡ counts_at file.now }
{
    Counts {
        version: reading::field::byte_at(file, 0),
        automata: reading::field::byte_at(file, 5),
        locations: reading::field::byte_at(file, 6),
        edges: reading::field::short_of(
            reading::field::byte_at(file, 7),
            reading::field::byte_at(file, 8),
        ),
        clocks: reading::field::byte_at(file, 9),
        variables: reading::field::byte_at(file, 10),
        rendezvous: reading::field::byte_at(file, 11),
        broadcasts: reading::field::byte_at(file, 12),
    }
}

// The counts of a file whose header is right and whose counts are in range.
pub fn read_header(file: &[u8]) -> Option<Counts>
    ensures means { header_of result ≡ counts_of file.now }
    ensures within { HeaderFits file.now result }
{
    if !headed(file) {
        return None;
    }
    let counts = counts_at(file);
    if in_range(counts) { Some(counts) } else { None }
}
