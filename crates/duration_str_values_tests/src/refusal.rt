use duration_str::{Fault, Options, parse_with};
use std::process::Abort;

pub fn refusal<'a>(rt: &impl Abort, text: &'a str, o: Options) -> Fault<'a> {
    parse_with(text, o).err().expect(rt, "a refused text")
}
