//! Places in a description.

use json::Value;
use std::alloc::{AllocError, Allocator};
use x509_report_parts::shown::{Frame, Shown};

/// How deep the places go that are told.
pub const DEPTH: usize = 24;

/// A step that goes nowhere: to a list that stands where an object with `items` may stand.
pub const STAY: usize = usize::MAX;

/// A place of a description: from the root on, which member or item is gone to.
#[derive(Clone, Copy, Drop)]
pub struct Place {
    steps: [usize; DEPTH],
    depth: usize,
}

impl Place {
    /// The root.
    pub fn root() -> Self {
        Place {
            steps: [STAY; DEPTH],
            depth: 0,
        }
    }

    /// Goes to a member or an item.
    pub fn enter(&mut self, index: usize) {
        if self.depth < DEPTH {
            self.steps[self.depth] = index;
        }
        self.depth = self.depth.saturating_add(1);
    }

    /// Goes to the member of an object, and stays where there is none.
    pub fn enter_member<A: Allocator>(&mut self, node: &Value<'_, A>, name: &str) {
        self.enter(index_of(node, name));
    }

    /// Goes back.
    pub fn leave(&mut self) {
        self.depth = self.depth.saturating_sub(1);
    }

    /// The steps.
    fn steps(&self) -> &[usize] {
        self.steps.get(..self.depth).unwrap_or(&self.steps)
    }
}

/// Which member of an object has a name.
fn index_of<A: Allocator>(node: &Value<'_, A>, name: &str) -> usize {
    if let Value::Object(members) = node {
        for (index, (key, _)) in members.iter().enumerate() {
            if *key == name {
                return index;
            }
        }
    }
    STAY
}

/// The member or the item that a step goes to.
fn child<'t, 'v, A: Allocator + Copy>(
    node: &'t Value<'v, A>,
    step: usize,
) -> Option<&'t Value<'v, A>> {
    match node {
        Value::Object(members) => {
            let (_, value) = members.as_slice().get(step)?;
            Some(value)
        }
        Value::Array(items) => items.as_slice().get(step),
        _ => None,
    }
}

/// Members that keys stand in: what stands in them isn't told.
const SECRETS: [&'static str; 4] = [
    "PrivateKeyInfo",
    "RSAPrivateKey",
    "ECPrivateKey",
    "privateKey",
];

/// Whether a step goes into a private key.
fn is_secret<A: Allocator>(node: &Value<'_, A>, step: usize) -> bool {
    if let Value::Object(members) = node {
        if let Some((name, _)) = members.as_slice().get(step) {
            return SECRETS.iter().any(|secret| *secret == *name);
        }
    }
    false
}

/// Writes a step.
fn write_step<A: Allocator + Copy>(
    out: &mut String<A>,
    node: &Value<'_, A>,
    step: usize,
) -> Result<(), AllocError> {
    match node {
        Value::Object(members) => {
            let Some((name, _)) = members.as_slice().get(step) else {
                return Ok(());
            };
            if !out.is_empty() {
                out.push('.')?;
            }
            write!(out, "{}", Shown(name, Frame::Line))
        }
        Value::Array(items) if step < items.len() => write!(out, "[{step}]"),
        _ => Ok(()),
    }
}

/// How many characters of a text are told.
const MOST: usize = 40;

/// The front of a text.
fn front<A: Allocator + Copy>(alloc: A, text: &str) -> Result<String<A>, AllocError> {
    let mut out = String::new(alloc);
    for (index, c) in text.chars().enumerate() {
        if index < MOST {
            out.push(c)?;
        }
    }
    if out.len() < text.len() {
        out.push_str("..")?;
    }
    Ok(out)
}

/// The text of a place, as `tbsCertificate.validity.notAfter`, and the front of the text that stands there, if it is
/// one and isn't part of a private key.
///
/// # Errors
/// `AllocError` where memory is refused.
pub fn told<A: Allocator + Copy>(
    alloc: A,
    root: &Value<'_, A>,
    place: &Place,
) -> Result<(String<A>, String<A>), AllocError> {
    let mut path = String::new(alloc);
    let mut node = root;
    let mut hides = false;
    for step in place.steps() {
        write_step(&mut path, node, *step)?;
        hides = hides || is_secret(node, *step);
        node = child(node, *step).unwrap_or(node);
    }
    let text = node.get("value").unwrap_or(node).as_str().unwrap_or("");
    let word = front(alloc, if hides { "" } else { text })?;
    Ok((path, word))
}
