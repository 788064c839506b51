//! Names that come again.
use moo_value::text::Text;
use std::alloc::Global;

/// How many places there are.
const PLACES: usize = 256;

/// Names, to be found again by a word: one for each place.
#[derive(Drop)]
pub struct Names {
    /// Which of the names a place has, if it has one: that name's place tells.
    places: [u8; PLACES],
    names: Vec<Text>,
}

impl Names {
    /// None.
    pub fn new(alloc: Global) -> Names {
        Names {
            places: [0; PLACES],
            names: Vec::new(alloc),
        }
    }

    /// The name that a word is, if it is still known.
    pub fn find(&self, word: &[u8]) -> Option<&Text> {
        let index = self.places[usize::from(place_of(word))];
        match self.names.get(usize::from(index)) {
            Some(name) if name.as_str().as_bytes() == word => Some(name),
            _ => None,
        }
    }

    /// Keeps a name, if there is memory for it, and forgets the one that had its place.
    pub fn keep(&mut self, name: Text) {
        let place = place_of(name.as_str().as_bytes());
        let index = usize::from(self.places[usize::from(place)]);
        if let Some(other) = self.names.get_mut(index) {
            if place_of(other.as_str().as_bytes()) == place {
                *other = name;
                return;
            }
        }
        self.put(place, name);
    }

    // Keeps a name at a place that none has had.
    fn put(&mut self, place: u8, name: Text) {
        if let Ok(index) = u8::try_from(self.names.len()) {
            if self.names.push(name).is_ok() {
                self.places[usize::from(place)] = index;
            }
        }
    }
}

// Where a word is sought.
fn place_of(word: &[u8]) -> u8 {
    match word {
        [first, .., last] => {
            let middle = word[word.len() / 2];
            let ends = first.wrapping_mul(7).wrapping_add(last.wrapping_mul(31));
            ends.wrapping_add(middle.wrapping_mul(13))
        }
        [only] => *only,
        [] => 0,
    }
}
