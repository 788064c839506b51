//! Arguments and items that were read.

/// Arguments, or items of a scatter.
#[derive(Clone, Copy)]
pub struct Several {
    pub count: usize,
    /// How high the highest expression in them is.
    pub height: usize,
}

impl Several {
    /// None.
    pub fn new() -> Several {
        Several {
            count: 0,
            height: 0,
        }
    }

    /// These and one more, which is so high.
    pub fn and(self, height: usize) -> Several {
        Several {
            count: self.count.saturating_add(1),
            height: self.height.max(height),
        }
    }
}

/// The codes that a handler takes.
#[derive(Clone, Copy)]
pub enum CodesRead {
    Any,
    Listed(Several),
}
