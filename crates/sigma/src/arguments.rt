//! The arguments of the program without its own name, which may hold any bytes.
use std::env::FillError;
use std::io;
use std::rt::Env;

/// An environment whose argument 0 is the word after the program's name.
#[derive(Drop)]
pub struct Arguments<'a, R: Env> {
    pub env: &'a R,
}

impl<R: Env> Env for Arguments<'_, R> {
    fn arg(&self, i: usize, buf: &mut [u8]) -> Result<usize, FillError> {
        self.env.arg(i.saturating_add(1), buf)
    }

    fn var(&self, name: &str, buf: &mut [u8]) -> Result<usize, FillError> {
        self.env.var(name, buf)
    }

    fn var_at(&self, i: usize, buf: &mut [u8]) -> Result<usize, FillError> {
        self.env.var_at(i, buf)
    }
}
