// Index tokens, compared and copied.
ghost use Rattle.std.specs.Prelude.{◌≡◌, IfOk};
ghost use Rattle.std.specs.declared.cmp.Ordering.{Ordering};
ghost use Rattle.dg_tokens.specs.Orders.{index_token_cmp};

use crate::IndexToken;
use dg_values::{Mem, OutOfMemory, cmp_value};
use std::alloc::Global;
use std::cmp::Ordering;

/// The order of two tokens: by tokenizer, and then by value. It takes no memory.
pub fn cmp_token(a: &IndexToken, b: &IndexToken) -> Ordering
    ensures { result ≡ index_token_cmp a.now b.now }
{
    a.tokenizer
        .cmp(&b.tokenizer)
        .then(cmp_value(&a.value, &b.value))
}

/// An equal token. The error is want of memory.
pub fn copy_token(alloc: Global, token: &IndexToken) -> Mem<IndexToken>
    ensures { IfOk result (λ t. t ≡ token.now) }
{
    let value = token.value.copy(alloc)?;
    Ok(IndexToken {
        tokenizer: token.tokenizer,
        value,
    })
}
