//! The classes of a stream at its ports.

ghost use Rattle.std.specs.Prelude.{◌≡◌, ◌<◌, ◌==◌, ◌&&◌, not, false, length, slice_index_or, All, IfOk};
ghost use Rattle.std.specs.List.{list_any};
ghost use Rattle.ats_streams.specs.Stream.{IsClass, is_bad_class, are_bad_classes, classes_for};

use crate::stream::MAX_CLASS;
use std::alloc::{AllocError, Global};

/// Whether no stream has this class: it is not 1 to 7.
pub fn is_bad_class(class: u64) -> bool
    ensures { result ≡ is_bad_class class }
{
    class < 1 || class > MAX_CLASS
}

/// Whether so many classes are neither one nor as many as the ports.
pub fn is_other_count(ports: usize, given: usize) -> bool
    ensures { result ≡ (not (given == 1) && not (given == ports)) }
{
    given != 1 && given != ports
}

/// Whether one of these is not 1 to 7.
pub fn has_bad_class(given: &[u64]) -> bool
    ensures { result ≡ list_any is_bad_class given.now }
{
    given.iter().any(|class| is_bad_class(*class))
}

/// Whether these are no classes for so many ports: one is not 1 to 7, or they are neither one nor as many as the ports.
pub fn are_bad_classes(ports: usize, given: &[u64]) -> bool
    ensures { result ≡ are_bad_classes ports given.now }
{
    has_bad_class(given) || is_other_count(ports, given.len())
}

/// The class at one of so many ports, of those that are given: a single one stands for each.
pub fn class_along(ports: usize, given: &[u64], port: usize) -> u8
    requires { (are_bad_classes ports given.now ≡ false) × (port < ports) }
    ensures { result ≡ slice_index_or (classes_for ports given.now) port 0 }
{
    let place = if given.len() == 1 { 0 } else { port };
    given[place] as u8
}

/// The class at each of so many ports, of those that are given: a single class stands for each port. `AllocError` where
/// memory runs out.
pub fn classes_for(alloc: Global, ports: usize, given: &[u64]) -> Result<Vec<u8>, AllocError>
    requires { are_bad_classes ports given.now ≡ false }
    ensures value { IfOk result (λ classes. classes.items ≡ classes_for ports given.now) }
    ensures each { IfOk result (λ classes. All IsClass classes.items) }
    ensures count { IfOk result (λ classes. length classes.items ≡ ports) }
{
    let mut classes = Vec::with_capacity(alloc, ports)?;
    for port in 0..ports {
        classes.push(class_along(ports, given, port))?;
    }
    Ok(classes)
}
