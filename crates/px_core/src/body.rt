use crate::Command;
use px_terms::{ValueType, ValueTypes};

/// What a procedure does. The parameters stand in its first slots, in order.
pub struct Body {
    /// How many slots there are.
    pub slots: u32,
    pub parameters: ValueTypes,
    /// None for a procedure that gives no value.
    pub result: Option<ValueType>,
    pub commands: Vec<Command>,
}

impl Drop for Body {
    fn drop(self) {
        let Body {
            slots: _,
            parameters: _,
            result: _,
            commands: _,
        } = self;
    }
}
