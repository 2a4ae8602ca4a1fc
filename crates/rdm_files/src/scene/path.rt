//! Paths of values in a file, for people.
use arrayvec::ArrayVec;
use std::fmt;

/// The path of a value in a file: the keys and items that lead to it.
#[derive(Drop)]
pub struct Path {
    // The steps to the value, the last one first.
    steps: ArrayVec<Step, MOST_STEPS>,
    // The index in the list under the key of the next step.
    item: Option<usize>,
}

/// A key, and an index in the list under it.
#[derive(Clone, Copy, Default, Drop)]
pub struct Step {
    key: &'static str,
    item: Option<usize>,
}

// How deep the keys of a file nest: four levels in a scene, and two more around it.
const MOST_STEPS: usize = 6;

impl Path {
    /// The path of the whole file.
    pub(crate) fn whole() -> Path {
        Path {
            steps: ArrayVec::new(),
            item: None,
        }
    }

    /// Whether it is the path of the whole file.
    pub(crate) fn is_whole(&self) -> bool {
        self.steps.is_empty()
    }

    /// The same path, in an item of a list.
    pub(crate) fn in_item(self, item: usize) -> Path {
        Path {
            item: Some(item),
            ..self
        }
    }

    /// The same path, under a key of an object.
    pub(crate) fn under(mut self, key: &'static str) -> Path {
        let item = self.item;
        // The path of a value that lies deeper is cut short at its outermost keys.
        let _ = self.steps.try_push(Step { key, item });
        self.item = None;
        self
    }
}

impl fmt::Display for Path {
    fn fmt<W: fmt::Write>(&self, f: &mut fmt::Formatter<W>) -> fmt::Result {
        let mut steps = self.steps.iter().rev();
        let Some(outermost) = steps.next() else {
            return f.write_str("the file");
        };
        write_step(f, outermost)?;
        for step in steps {
            f.write_str(".")?;
            write_step(f, step)?;
        }
        Ok(())
    }
}

fn write_step<W: fmt::Write>(f: &mut fmt::Formatter<W>, step: &Step) -> fmt::Result {
    match step.item {
        Some(item) => write!(f, "{}[{item}]", step.key),
        None => f.write_str(step.key),
    }
}
