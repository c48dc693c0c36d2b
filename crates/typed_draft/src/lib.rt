// What the lines above of a typed list say, and one line more: settings that stand at most once, and a count of shots. specs/Drafts.antt.
// Stands on `typed_line`, which reads a single line, and on `shotfile_records` for the settings that are left out.
#![tactic(auto)]

ghost use Rattle.std.specs.Prelude.{◌≡◌};
ghost use Rattle.typed_draft.specs.Drafts.{nothing_yet, settings_of, once, settled, shot_more, then};

use shotfile_records::{Fields, header_absent};
use typed_line::{Entry, Mistake, Setting};

// The settings that lines have given, and the number of shots.
#[derive(Clone, Copy, PartialEq, Eq, Debug)]
pub struct Draft {
    pub field: Option<u16>,
    pub edge: Option<u16>,
    pub grid: Option<u16>,
    pub shots: usize,
}

impl Draft {
    // The settings; one that no line has given is what a shot file leaves out.
    #[tactic(auto, unfolding(crate::specs::Drafts::settings_of))]
    pub fn settings(&self) -> Fields
        ensures { result ≡ settings_of self.now }
    {
        let absent = header_absent();
        Fields {
            first: self.field.unwrap_or(absent.first),
            second: self.edge.unwrap_or(absent.second),
            third: self.grid.unwrap_or(absent.third),
        }
    }
}

// Before the first line: no setting and no shots.
#[tactic(auto, unfolding(crate::specs::Drafts::nothing_yet))]
pub fn nothing_yet() -> Draft
    ensures { result ≡ nothing_yet }
{
    Draft {
        field: None,
        edge: None,
        grid: None,
        shots: 0,
    }
}

// A setting that a line gives, where no line above has given it.
fn once(above: Option<u16>, number: u16) -> Result<Option<u16>, Mistake>
    ensures { result ≡ once above number }
{
    match above {
        Some(_) => Err(Mistake::SettingTwice),
        None => Ok(Some(number)),
    }
}

// A setting more.
#[tactic(auto, unfolding(crate::specs::Drafts::settled))]
fn settle(mut d: Draft, which: Setting, number: u16) -> Result<Draft, Mistake>
    ensures { result ≡ settled d which number }
{
    match which {
        Setting::Field => d.field = once(d.field, number)?,
        Setting::Edge => d.edge = once(d.edge, number)?,
        Setting::Grid => d.grid = once(d.grid, number)?,
    }
    Ok(d)
}

// A shot more, where so many have a place.
#[tactic(auto, unfolding(crate::specs::Drafts::shot_more))]
fn shoot(d: Draft, places: usize) -> Result<Draft, Mistake>
    ensures { result ≡ shot_more places d }
{
    let shots = d.shots;
    if 4096 <= shots {
        return Err(Mistake::TooManyShots);
    }
    if places <= shots {
        return Err(Mistake::NoPlace);
    }
    Ok(Draft {
        shots: shots + 1,
        ..d
    })
}

// A line more.
#[tactic(auto, unfolding(crate::specs::Drafts::then))]
pub fn then(d: Draft, places: usize, entry: Result<Entry, Mistake>) -> Result<Draft, Mistake>
    ensures { result ≡ then places d entry }
{
    match entry? {
        Entry::Nothing => Ok(d),
        Entry::Setting { which, number } => settle(d, which, number),
        Entry::Shot { .. } => shoot(d, places),
    }
}
