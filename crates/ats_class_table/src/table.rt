//! A value for each port and class.

ghost use Rattle.std.specs.Prelude.{◌≡◌, ◌+◌, ◌*◌, ◌<◌, ◌≤◌, Some, IfOk};
ghost use Rattle.ats_class_table.specs.Table.{AreValuesAt, IsFilled, Sets, value_at};

use std::alloc::{AllocError, Global};
use std::marker::Model;

/// The number of classes: those of streams, 1 to 7, and 0, that of flows.
pub const CLASSES: usize = 8;

/// A value for each port and each class from 0 to 7, each found at once. Contracts see the number of ports, and the
/// value at a port and a class.
#[derive(Drop)]
pub struct PortClassTable<T: Copy> {
    ports: usize,
    values: Vec<T>,
}

impl<T: Copy> Model for PortClassTable<T> {
    ghost use Rattle.std.specs.Prelude.{◌≡◌, ◌*◌, length};
    ghost use Rattle.ats_class_table.specs.Table.{Table, table_of};

    ghost Value = { Table T };

    ghost view = { λ t. table_of t.ports t.values.items };

    ghost invariant = { λ t. length t.values.items ≡ 8 * t.ports };
}

impl<T: Copy> PortClassTable<T> {
    /// A table for so many ports with this value everywhere. `AllocError` where there is no memory for it.
    pub fn new(alloc: Global, ports: usize, value: T) -> Result<Self, AllocError>
        requires { ports ≤ 4096 }
        ensures { IfOk result (IsFilled ports value) }
    {
        let count = CLASSES * ports;
        let mut values = Vec::with_capacity(alloc, count)?;
        for _ in 0..count {
            values.push(value)?;
        }
        Ok(PortClassTable { ports, values })
    }

    /// The value at a port and a class.
    pub fn get(&self, port: u32, class: u8) -> T
        requires port { port < self.now.ports }
        requires class { class ≤ 7 }
        ensures { value_at self.now port class ≡ Some result }
    {
        self.values[place(port, class)]
    }

    /// The eight values at a port, by class.
    pub fn values_at(&self, port: u32) -> &[T]
        requires { port < self.now.ports }
        ensures { AreValuesAt self.now port result.now }
    {
        let first = CLASSES * port as usize;
        &self.values[first..first + CLASSES]
    }

    /// Puts a value at a port and a class. All others stay.
    pub fn set(&mut self, port: u32, class: u8, value: T)
        requires port { port < self.old.ports }
        requires class { class ≤ 7 }
        ensures { Sets port class value self.old self.new }
    {
        self.values[place(port, class)] = value;
    }
}

// The place of a port and a class, eight to a port.
fn place(port: u32, class: u8) -> usize
    ensures { result ≡ 8 * port + class }
{
    CLASSES * port as usize + class as usize
}
