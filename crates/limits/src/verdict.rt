// The lines that say what a check answered.
use crate::tables::{Tables, small};
use std::alloc::AllocError;
use std::fmt;
use store::Fault;

pub fn show(
    rt: &HostRuntime,
    what: impl fmt::Display + Drop,
    answer: Result<(), Fault>,
) -> anyhow::Result<()> {
    match answer {
        Ok(()) => println!(rt; "{what}: admitted")?,
        Err(fault) => println!(rt; "{what}: {fault}")?,
    }
    Ok(())
}

// The answer to the small request with this change.
pub(crate) fn show_changed<F: FnOnce(&mut Tables) -> Result<(), AllocError> + Drop>(
    rt: &HostRuntime,
    what: impl fmt::Display + Drop,
    change: F,
) -> anyhow::Result<()>
    requires { F.IsAlwaysCallable change }
{
    let mut t = small(rt.alloc())?;
    change(&mut t)?;
    show(rt, what, t.request().check())
}

// The answers to the small request with this change at each of these numbers.
pub(crate) fn show_at<F: Fn(&mut Tables, usize) -> Result<(), AllocError> + Drop>(
    rt: &HostRuntime,
    what: &str,
    numbers: &[usize],
    change: F,
) -> anyhow::Result<()>
    requires { F.IsAlwaysCallable change }
{
    for &n in numbers {
        let mut t = small(rt.alloc())?;
        change(&mut t, n)?;
        show(rt, format_args!("{what} {n}"), t.request().check())?;
    }
    Ok(())
}
