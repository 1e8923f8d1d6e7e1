// Kinds of value: commutative semirings that need not have a one, and code written once for all of them.
#![tactic(auto)]

ghost use Rattle.std.specs.Prelude.{◌≡◌};
ghost use Rattle.model.specs.Semirings.{Algebra, Laws, ZeroTest};

pub mod count;
pub mod fault;
mod kinds;
mod rows;
pub mod time;

pub use count::Count;
pub use fault::RowFault;
pub use kinds::capped_product_is_none;
pub use rows::{dot, multiply_rows, sum_row};
pub use time::Time;

pub trait Semiring: Copy {
    // How a value lies in an area: any plain value can be read, and a value that is stored is read back.
    type Plain: Copy;

    ghost algebra: { Algebra Self };

    ghost reads: { Self.Plain → Self };

    ghost stored: { Self → Self.Plain };

    fn zero() -> Self
        ensures { result ≡ algebra.zero };

    fn add(self, other: Self) -> Self
        ensures { result ≡ algebra.sum self other };

    fn mul(self, other: Self) -> Self
        ensures { result ≡ algebra.product self other };

    fn is_zero(self) -> bool
        ensures { result ≡ algebra.is_zero self };

    fn read(plain: Self::Plain) -> Self
        ensures { result ≡ reads plain };

    fn plain(self) -> Self::Plain
        ensures { result ≡ stored self };

    ghost laws: { Laws algebra };

    ghost test: { ZeroTest algebra };

    ghost again: { (x : Self) → reads (stored x) ≡ x };
}
