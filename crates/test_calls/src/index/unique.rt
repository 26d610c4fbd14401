// The verdicts on texts whose objects may repeat no name, in one pass and by slices.
ghost use Rattle.std.specs.Prelude.{◌≡◌};
ghost use Rattle.jx_run.specs.declared.texts.settings.NameRule.TheVariants.{Unique};

use jx_index::verdict_with_unique_names;
use jx_names::NamesReader;
use jx_run::{NameRule, NoPause, Settings, Verdict};
use std::alloc::{AllocError, Global};
use test_words::{Line, Out, Ways, push_verdict};

/// How many bytes are fed at most.
const FAR: usize = 1 << 40;

/// Of how many bytes the slices are where a text has many cuts.
const SIZES: [usize; 4] = [1, 2, 3, 7];

/// At so many places at most a text is cut once; one that is no longer is cut everywhere.
const PLACES: usize = 200;

/// A verdict in words.
fn told(alloc: Global, verdict: Result<Verdict, AllocError>) -> Result<Out, AllocError> {
    let verdict = verdict?;
    let mut told = Out::new(alloc);
    push_verdict(&mut told, verdict);
    Ok(told)
}

/// The verdict on a text that is fed by these slices.
fn told_by(alloc: Global, settings: &Settings, slices: &[&[u8]]) -> Result<Out, AllocError>
    requires { settings.now.names ≡ Unique }
{
    let mut reader = NamesReader::new(alloc, settings);
    for slice in slices {
        if reader.end() < FAR && slice.len() < FAR {
            reader.feed(*slice)?;
        }
    }
    told(alloc, reader.verdict())
}

/// `unique DEPTH SETTINGS TEXT`: the verdict, where no object may repeat a name whatever the settings say of that, by one pass
/// and by slices.
pub(crate) fn unique(line: &mut Line<'_>) {
    let depth = line.depth();
    let read = line.settings(depth);
    let settings = Settings {
        depth,
        mark: read.mark,
        names: NameRule::Unique,
    };
    let text = line.text();
    let alloc = line.alloc;
    let mut ways = Ways::new(alloc);
    let verdict = verdict_with_unique_names(alloc, &text, &settings, &mut NoPause);
    ways.add_made("by one pass", told(alloc, verdict));
    ways.add_sliced(&text, &SIZES, |slices| told_by(alloc, &settings, slices));
    let apart = text.len() / PLACES + 1;
    ways.add_halved(&text, apart, |slices| told_by(alloc, &settings, slices));
    ways.push_to(&mut line.out);
}
