//! Counting the parts of a segment against its limits.

ghost use Rattle.std.specs.Prelude.{◌≡◌};
ghost use Rattle.syntax.specs.Counts.{none, text_of, passed_of, element_of, occurrence_of, component_of, mark_of};

/// What stood before a place in a segment: `+` in it, `*` in the element, `:` in the occurrence, characters in the component.
#[derive(Clone, Copy)]
pub struct Counts {
    pub elements: usize,
    pub occurrences: usize,
    pub components: usize,
    pub characters: usize,
    /// A limit is passed; the counts no longer go on.
    pub over: bool,
}

impl Counts {
    /// At the segment's first byte.
    pub fn none() -> Self
        ensures { result ≡ none }
    {
        Counts {
            elements: 0,
            occurrences: 0,
            components: 0,
            characters: 0,
            over: false,
        }
    }

    /// After `n` characters more of the same component.
    pub fn text(self, n: usize) -> Self
        ensures { result ≡ text_of self n }
    {
        if 512 < n {
            return self.passed();
        }
        if 512 - n < self.characters {
            return self.passed();
        }
        Counts {
            characters: self.characters + n,
            ..self
        }
    }

    // A limit is passed.
    fn passed(self) -> Self
        ensures { result ≡ passed_of self }
    {
        Counts { over: true, ..self }
    }

    /// After a `+`, a `*`, or else a `:` that is not released.
    pub fn mark(self, b: u8) -> Self
        ensures { result ≡ mark_of self b }
    {
        match b {
            b'+' => self.element(),
            b'*' => self.occurrence(),
            _ => self.component(),
        }
    }

    fn element(self) -> Self
        ensures { result ≡ element_of self }
    {
        if self.elements < 64 {
            return Counts {
                elements: self.elements + 1,
                occurrences: 0,
                components: 0,
                characters: 0,
                ..self
            };
        }
        self.passed()
    }

    fn occurrence(self) -> Self
        ensures { result ≡ occurrence_of self }
    {
        if self.occurrences < 98 {
            return Counts {
                occurrences: self.occurrences + 1,
                components: 0,
                characters: 0,
                ..self
            };
        }
        self.passed()
    }

    fn component(self) -> Self
        ensures { result ≡ component_of self }
    {
        if self.components < 31 {
            return Counts {
                components: self.components + 1,
                characters: 0,
                ..self
            };
        }
        self.passed()
    }
}
