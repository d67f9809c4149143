//! Assertions that would be false.

use assertion::Form;
use delta::View;
use value::{Root, Text};

/// An assertion that would be false at a root, on a view: its place in the order of creation, and its form.
#[derive(Clone, Copy)]
pub struct Violation<'a> {
    pub view: &'a View,
    pub place: usize,
    pub form: &'a Form,
    pub root: &'a Root,
}

impl<'a> Violation<'a> {
    /// Of the assertion of this name, if there is one.
    pub fn of(view: &'a View, name: &Text, root: &'a Root) -> Option<Violation<'a>> {
        let place = view.assertions().iter().position(|it| it.name == *name)?;
        let assertion = view.assertions().get(place)?;
        Some(Violation {
            view,
            place,
            form: &assertion.form,
            root,
        })
    }
}
