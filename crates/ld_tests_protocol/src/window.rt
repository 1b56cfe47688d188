// How many numbers fit the window.
ghost use Rattle.std.specs.Prelude.{◌≡◌, ◌≤◌, IfOk, length};

use ld_window::{Full, Window};
use std::alloc::Global;
use std::test::Fail;

/// A window of which the first so many numbers are pushed.
fn pushed(alloc: Global, count: u32) -> Result<Window, Fail>
    requires { count ≤ 128 }
    ensures { IfOk result (λ window. length window ≡ count) }
{
    let mut window = Window::with(alloc, 128)?;
    'esns: for esn in 1..count + 1 {
        window.push(esn)?;
    }
    Ok(window)
}

/// The first number that doesn't fit, and the first one once number 1 is stored, 0 for one behind that; and up to which number
/// all are stored.
fn past(alloc: Global) -> Result<[u32; 3], Fail> {
    let mut window = pushed(alloc, 128)?;
    let Err(Full) = window.push(129) else {
        return Ok([0, 0, 0]);
    };
    window.stored(1);
    let Ok(()) = window.push(129) else {
        return Ok([129, 129, 0]);
    };
    let next = if window.push(130).is_err() { 130 } else { 0 };
    Ok([129, next, window.lng()])
}

#[test]
fn the_window_holds_128_numbers(rt: HostRuntime) -> Result<(), Fail> {
    assert_eq!(rt; past(rt.alloc())?, [129, 130, 1]);
    Ok(())
}
