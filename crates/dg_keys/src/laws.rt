// What holds of the bytes of keys, whatever the keys.
ghost use Rattle.std.specs.Prelude.{◌≡◌};
ghost use Rattle.dg_values.specs.Order.{text_cmp};
ghost use Rattle.dg_keys.specs.declared.key.Key.{Key};
ghost use Rattle.dg_keys.specs.Keys.{key_cmp};
ghost use Rattle.dg_keys.specs.KeyBytes.{IsKey, key_bytes};

/// The bytes of keys order as the keys do.
pub fn bytes_order_as_keys()
    ensures { (a : Key) (b : Key) → IsKey a → IsKey b → text_cmp (key_bytes a) (key_bytes b) ≡ key_cmp a b }
{}

/// No two keys have the same bytes.
pub fn bytes_are_of_one_key()
    ensures { (a : Key) (b : Key) → IsKey a → IsKey b → key_bytes a ≡ key_bytes b → a ≡ b }
{}
