//! What a form is read with.

use crate::known::Known;
use pl_names::Names;

/// The file in small letters, what both files declare, and the parameters of the action.
#[derive(Clone, Copy)]
pub struct Scope<'s, 'a> {
    pub text: &'a [u8],
    pub known: &'s Known<'a>,
    pub parameters: &'s Names<'a>,
}
