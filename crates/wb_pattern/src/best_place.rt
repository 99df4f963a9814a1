//! How well a pattern fits.

/// How well a pattern fits: the lower class is better, in one class the greater length.
#[derive(Clone, Copy, Debug, PartialEq, Eq)]
pub struct Place {
    /// 1 for an equal path and for the empty pattern at a context's root, 2 for a path above, 3 for an extension, 4 for
    /// `/`.
    pub class: u8,
    /// In class 2 the bytes of the pattern's path, else 0.
    pub length: usize,
}
