//! A trace that is made.
ghost use Rattle.std.specs.Prelude.{◌≡◌, IfOk};
ghost use Rattle.trace_text.specs.Generated.{made_trace};

use image_run::Product;
use std::alloc::{AllocError, Global};
use tool_command::TracePlan;
use trace_text::gen_text;

/// The trace of a plan, as a text.
pub fn generate(alloc: Global, plan: TracePlan) -> Result<Product, AllocError>
    ensures ok { IfOk result (λ product. (product.image ≡ None)
        × (product.text ≡ made_trace plan.requests plan.seed)) }
{
    let text = gen_text(alloc, plan.requests, plan.seed)?;
    Ok(Product { image: None, text })
}
