// What the chart machine moves.
ghost use Rattle.std.specs.Prelude.{◌≡◌, List, ℕ};
ghost use Rattle.chart_records.specs.Chart.{Chart};
ghost use Rattle.chart.specs.Ready.{Ready};
ghost use Rattle.chart_moves.specs.Machine.{zero_configuration, start};

use chart::check::CheckedFile;
use chart_tree::entry::start_active;

#[derive(Clone, Copy)]
pub struct Configuration {
    pub active: [bool; Configuration::STATES],
    pub variables: [i32; Configuration::VARIABLES],
    pub clocks: [u32; Configuration::CLOCKS],
}

impl Configuration {
    pub const STATES: usize = 48;

    pub const VARIABLES: usize = 16;

    pub const CLOCKS: usize = 8;

    // No state active, all values 0.
    pub fn zero() -> Configuration
        ensures { result ≡ zero_configuration }
    {
        Configuration {
            active: [false; Self::STATES],
            variables: [0; Self::VARIABLES],
            clocks: [0; Self::CLOCKS],
        }
    }

    // What entering the root by the main entry enters, all values 0; of a file that passed the check.
    pub fn start(file: CheckedFile) -> Configuration
        ensures { (rest : List ℕ) (c : Chart) → Ready rest file.counts file.offsets file.tree c → result ≡ start c }
    {
        Configuration {
            active: start_active(file.tree),
            ..Self::zero()
        }
    }
}
