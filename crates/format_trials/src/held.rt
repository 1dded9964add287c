//! Values that are dropped by a call.

/// A value of many parts. Who holds one lets it go by a call, and not part by part.
pub struct Held<T: Drop> {
    /// The value.
    pub value: T,
}

impl<T: Drop> Drop for Held<T> {
    fn drop(self) {
        let Held { value: _ } = self;
    }
}
