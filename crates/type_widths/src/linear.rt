//! Linear forms, as lists of numbers.
ghost use Rattle.std.specs.Prelude.{◌≡◌, ℕ, ◌+◌, ◌*◌, ◌<◌, ◌≤◌, List, [], ◌∷◌, length, IfOk, OnOk, min, slice_index};
ghost use Rattle.type_widths.specs.Form.{dot, IsScaled};

use std::alloc::{AllocError, Global};

/// How many numbers a form has: a constant, and a factor for each of 16 generics.
const SIZE: usize = 17;

/// The form with k times the other form added.
pub(crate) fn scaled(
    alloc: Global,
    k: u16,
    total: &[u16],
    form: &[u16],
) -> Result<Vec<u16>, AllocError>
    requires { length form.now ≡ length total.now }
    ensures { IfOk result (λ new. IsScaled k total.now form.now new.items) }
{
    let mut new = Vec::new(alloc);
    for i in 0..total.len() {
        new.push(total[i].saturating_add(k.saturating_mul(form[i])))?;
    }
    Ok(new)
}

/// Adds factors of 0, up to this many numbers.
fn pad(form: &mut Vec<u16>, len: usize) -> Result<(), AllocError>
    requires { length form.old.items ≤ len }
    ensures { OnOk result ((length form.new.items ≡ len) × ((ws : List ℕ) → dot form.new.items ws ≡ dot form.old.items ws)) }
{
    for _ in form.len()..len {
        form.push(0)?;
    }
    Ok(())
}

/// The form that is the same for all generics.
pub(crate) fn constant(alloc: Global, k: u16) -> Result<Vec<u16>, AllocError>
    ensures { IfOk result (λ new. (length new.items ≡ 17) × ((ws : List ℕ) → dot new.items (1 ∷ ws) ≡ k)) }
{
    let mut new = Vec::new(alloc);
    new.push(k)?;
    pad(&mut new, SIZE)?;
    Ok(new)
}

/// The form of generic k.
fn single(alloc: Global, k: usize) -> Result<Vec<u16>, AllocError>
    requires { k < 16 }
    ensures { IfOk result (λ new. (length new.items ≡ 17) × ((ws : List ℕ) → dot new.items (1 ∷ ws) ≡ slice_index ws k)) }
{
    let mut new = Vec::new(alloc);
    pad(&mut new, k + 1)?;
    new.push(1)?;
    pad(&mut new, SIZE)?;
    Ok(new)
}

/// The form of generic k, of 16; others have no word.
pub(crate) fn generic(alloc: Global, k: usize) -> Result<Vec<u16>, AllocError>
    ensures { IfOk result (λ new. (length new.items ≡ 17) × ((ws : List ℕ) → k < 16 → dot new.items (1 ∷ ws) ≡ slice_index ws k)) }
{
    if k < 16 {
        return single(alloc, k);
    }
    constant(alloc, 0)
}

/// The width of what has this form, where the generics are as wide as these; 256 stands for all above 255.
pub fn value(form: &[u16], widths: &[u16]) -> u16
    requires form { length form.now ≡ 17 }
    requires widths { length widths.now ≤ 16 }
    ensures { result ≡ min (dot form.now (1 ∷ widths.now)) 256 }
{
    let mut sum = form[0];
    for i in 0..widths.len() {
        sum = sum.saturating_add(form[i + 1].saturating_mul(widths[i]));
    }
    sum.min(256)
}
