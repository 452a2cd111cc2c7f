//! What of an output is compared.

/// What of an output is compared.
#[derive(Clone, Copy, Debug)]
pub struct Filter<'f> {
    /// Whether puts alone are, and of these the last to each channel at each time.
    pub puts_only: bool,
    /// The channels whose puts are left out.
    pub but: &'f [String],
}
