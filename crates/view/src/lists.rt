//! Lists of numbers, of names and of players.
ghost use Rattle.std.specs.Prelude.{◌≡◌, IfOk};

use moo_value::text::Text;
use std::alloc::{AllocError, Global};
use std::marker::Model;
use std::sync::Arc;

/// Objects in their order, shared by their owners: a clone is a count. None take no memory.
#[derive(Drop)]
pub struct Objects {
    items: Option<Arc<Vec<i32>>>,
}

impl Model for Objects {
    ghost use Rattle.std.specs.Prelude.{List, ℤ, option_map};
    ghost use Rattle.std.specs.Arc.{arc_value};
    ghost use Rattle.view.specs.Shared.{shared_items};
    ghost use Rattle.spec_world.specs.WorldCode.{integers_code};

    ghost Value = { List ℤ };

    ghost coded = { integers_code };

    ghost view = { λ a. shared_items (option_map arc_value a.items) };
}

impl Objects {
    /// These objects.
    pub fn new(alloc: Global, objects: Vec<i32>) -> Result<Objects, AllocError>
        ensures { IfOk result (λ os. os ≡ objects.items) }
    {
        if objects.is_empty() {
            return Ok(Objects { items: None });
        }
        Ok(Objects {
            items: Some(Arc::new(alloc, objects)?),
        })
    }

    /// The objects, in their order.
    pub fn as_slice(&self) -> &[i32]
        ensures { result.now ≡ self.now }
    {
        match &self.items {
            Some(items) => items.as_slice(),
            None => &[],
        }
    }
}

impl Clone for Objects {
    ghost is_clone = { λ objects copy. copy ≡ objects };

    fn clone(&self) -> Result<Objects, AllocError> {
        let items = match &self.items {
            Some(items) => Some(items.clone()?),
            None => None,
        };
        Ok(Objects { items })
    }
}

/// Numbers of tasks or of connections, in their order.
pub type Numbers = Objects;

/// Names in their order, shared by their owners: a clone is a count. None take no memory.
#[derive(Drop)]
pub struct Names {
    items: Option<Arc<Vec<Text>>>,
}

impl Model for Names {
    ghost use Rattle.std.specs.Prelude.{List, option_map};
    ghost use Rattle.std.specs.Coded.{coded_list};
    ghost use Rattle.std.specs.Arc.{arc_value};
    ghost use Rattle.view.specs.Shared.{shared_items};
    ghost use Rattle.spec_value.specs.Datum.{Text as Characters};
    ghost use Rattle.spec_world.specs.WorldCode.{text_code};

    ghost Value = { List Characters };

    ghost coded = { coded_list text_code };

    ghost view = { λ a. shared_items (option_map arc_value a.items) };
}

impl Names {
    /// These names.
    pub fn new(alloc: Global, names: Vec<Text>) -> Result<Names, AllocError>
        ensures { IfOk result (λ ts. ts ≡ names.items) }
    {
        if names.is_empty() {
            return Ok(Names { items: None });
        }
        Ok(Names {
            items: Some(Arc::new(alloc, names)?),
        })
    }

    /// The names, in their order.
    pub fn as_slice(&self) -> &[Text]
        ensures { result.now ≡ self.now }
    {
        match &self.items {
            Some(items) => items.as_slice(),
            None => &[],
        }
    }
}

impl Clone for Names {
    ghost is_clone = { λ names copy. copy ≡ names };

    fn clone(&self) -> Result<Names, AllocError> {
        let items = match &self.items {
            Some(items) => Some(items.clone()?),
            None => None,
        };
        Ok(Names { items })
    }
}

/// Lines of a program, in their order.
pub type Lines = Names;

/// Connections on which players have logged in, with their players, in the order of the connections.
#[derive(Drop)]
pub struct Players {
    items: Vec<(i32, i32)>,
}

impl Model for Players {
    ghost use Rattle.std.specs.Prelude.{List, ℤ};
    ghost use Rattle.std.specs.Coded.{coded×, coded_list, coded_ℤ};

    ghost Value = { List (ℤ × ℤ) };

    ghost coded = { coded_list (coded× coded_ℤ coded_ℤ) };

    ghost view = { λ a. a.items.items };
}

impl Players {
    /// These connections with their players.
    pub fn new(players: Vec<(i32, i32)>) -> Players
        ensures { result ≡ players.items }
    {
        Players { items: players }
    }

    /// The connections with their players, in their order.
    pub fn as_slice(&self) -> &[(i32, i32)]
        ensures { result.now ≡ self.now }
    {
        self.items.as_slice()
    }
}
