//! The texts of the files.

ghost use Rattle.std.specs.Prelude.{◌≡◌, ◌<◌, ◌≤◌, ◌+◌, ◌^◌, string_bytes, IfOk};
ghost use Rattle.source_gen.specs.Draws.{state_after};
ghost use Rattle.source_gen.specs.Sources as spec;

use crate::draws::Draws;
use std::alloc::{AllocError, Global};
use std::fmt::Write;

/// The numbers of a module.
#[derive(Clone, Copy)]
pub(crate) struct Numbers {
    /// The value of its constant.
    pub constant: u32,
    /// The factor of its `mix`.
    pub factor: u32,
    /// How often its `work` goes round.
    pub bound: u32,
}

impl Numbers {
    /// The numbers of the next module, from three draws.
    pub fn draw(draws: &mut Draws) -> Numbers
        ensures numbers { result ≡ spec.numbers_from draws.old.state }
        ensures state { draws.new.state ≡ state_after 3 draws.old.state }
    {
        let constant = draws.draw() % 100 + 1;
        let factor = draws.draw() % 9 + 1;
        let bound = draws.draw() % 20 + 1;
        Numbers {
            constant,
            factor,
            bound,
        }
    }
}

/// The name of the file of a module.
pub(crate) fn module_name(alloc: Global, k: u16) -> Result<String, AllocError>
    ensures { IfOk result (λ name. string_bytes name ≡ spec.module_name k) }
{
    format!(in alloc; "m{k}.larch")
}

/// The text of a module with these numbers that calls module p.
pub(crate) fn module_text(alloc: Global, p: u16, numbers: &Numbers) -> Result<String, AllocError>
    ensures { IfOk result (λ text. string_bytes text ≡ spec.module_text p numbers.now) }
{
    let a = numbers.constant;
    let b = numbers.factor;
    let c = numbers.bound;
    format!(in alloc;
        "const C: i64 = {a};\n\
         #[inline]\n\
         fn mix(x: i64) -> i64 {{ return x * {b} + C; }}\n\
         fn twice<T>(x: T) -> (T, T) {{ return (x, x); }}\n\
         fn work(n: i64) -> i64 {{\n\
         let s: i64 = n;\n\
         let i: i64 = 0;\n\
         while i < {c} {{\n\
         s = mix(s) + m{p}::mix(i);\n\
         i = i + 1;\n\
         }}\n\
         let p: (i64, i64) = twice::<i64>(s);\n\
         return p.0 % 1000003;\n\
         }}\n"
    )
}

/// The text of the main file for so many modules.
pub(crate) fn main_text(alloc: Global, modules: u16) -> Result<String, AllocError>
    requires { modules ≤ 255 }
    ensures { IfOk result (λ text. string_bytes text ≡ spec.main_text modules) }
{
    let mut text = String::from_str(alloc, "fn main() {\n")?;
    for k in 0..modules {
        let j = k + 1;
        write!(text, "print(m{k}::work({j}));\n")?;
    }
    text.push_str("}\n")?;
    Ok(text)
}
