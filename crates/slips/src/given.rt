// What the day is given: holdings and prices, by the codes of its components.
use std::alloc::{AllocError, Global};

// Ample cash, in thousandths of a yuan, and ample stock.
const CASH: u64 = 1_000_000_000_000_000_000;

const STOCK: u64 = 1_000_000_000_000;

// What the account holds of a component.
fn stock_of(code: u64) -> u64 {
    match code {
        600_000 => 3072,
        600_036 => 3000,
        _ => 0,
    }
}

// A component's price in thousandths of a yuan.
pub fn price_of(code: u64) -> Option<u64> {
    match code {
        1 => Some(12_000),
        600_000 => Some(10_000),
        600_036 => Some(40_000),
        _ => None,
    }
}

// The codes of components. By chunks, each one component at its own place 0: no index is counted.
pub fn codes_of(alloc: Global, components: &[u64]) -> Result<Vec<u64>, AllocError> {
    components
        .chunks_exact(layout::COMPONENT_WIDTH)
        .map(|numbers| layout::component_at(numbers, 0).code)
        .collect(alloc)
}

// Adds one holder's holdings: cash, what it holds of each component, and no units.
fn hold<F: Fn(u64) -> u64>(held: &mut Vec<u64>, codes: &[u64], stock: F) -> Result<(), AllocError>
    requires { F.IsAlwaysCallable stock }
{
    held.push(CASH)?;
    held.extend(codes.iter().map(|code| stock(*code)))?;
    held.push(0)?;
    Ok(())
}

// The holdings of the fund, and then of the account.
pub fn holdings(alloc: Global, codes: &[u64]) -> Result<Vec<u64>, AllocError> {
    let mut held = Vec::new(alloc);
    hold(&mut held, codes, |_| STOCK)?;
    hold(&mut held, codes, stock_of)?;
    Ok(held)
}
