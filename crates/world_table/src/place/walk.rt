//! Walks in the order of keys.
ghost use Rattle.std.specs.Prelude.{◌≡◌, option_map};
ghost use Rattle.std.specs.Arc.{arc_value};
ghost use Rattle.world_table.specs.Entries.{first_from, last_key};

use super::{Held, Place};
use std::sync::Arc;

impl<R> Place<R> {
    /// The first entry at this key or above it.
    pub fn next_from(&self, key: u64) -> Option<(u64, &Arc<R>)>
        ensures { option_map (λ e. (e.0, arc_value e.1.now)) result ≡ first_from key self.now.entries }
    {
        match &self.held {
            Held::Nothing => None,
            Held::Record(value) => { if key == 0 { Some((0, value)) } else { None } }
            Held::Block(below, places) => {
                let shift = 5 * *below;
                let first = (key >> shift).min(places.len() as u64);
                for at in first..places.len() as u64 {
                    let start = at << shift;
                    let from = key.saturating_sub(start);
                    if let Some((found, value)) = places[at as usize].next_from(from) {
                        return Some((start + found, value));
                    }
                }
                None
            }
        }
    }

    /// The greatest key.
    pub fn last_key(&self) -> Option<u64>
        ensures { result ≡ last_key self.now.entries }
    {
        match &self.held {
            Held::Nothing => None,
            Held::Record(_) => Some(0),
            Held::Block(below, places) => {
                let mut at = places.len();
                while at > 0 {
                    at -= 1;
                    if let Some(found) = places[at].last_key() {
                        return Some(((at as u64) << (5 * *below)) + found);
                    }
                }
                None
            }
        }
    }
}
