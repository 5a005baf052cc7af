//! The words of a command line without the program's name.
use std::env::{Env, FillError};

/// The environment of the program, whose word 0 is the one behind the program's name.
#[derive(Drop)]
pub(crate) struct BehindName<'a> {
    pub(crate) rt: &'a HostRuntime,
}

impl Env for BehindName<'_> {
    fn arg(&self, i: usize, buf: &mut [u8]) -> Result<usize, FillError> {
        match i.checked_add(1) {
            Some(next) => self.rt.arg(next, buf),
            None => Err(FillError::NotPresent),
        }
    }

    fn var(&self, name: &str, buf: &mut [u8]) -> Result<usize, FillError> {
        self.rt.var(name, buf)
    }

    fn var_at(&self, i: usize, buf: &mut [u8]) -> Result<usize, FillError> {
        self.rt.var_at(i, buf)
    }
}
