//! A law of the bytes of bodies, the contract of a function that does nothing.

ghost use Rattle.std.specs.{Prelude.{◌≡◌}, List.{concat}};
ghost use Rattle.prov_entry.specs.{declared.entry.Body.{Body}, Spelling.{IsBody, body_fields}};
ghost use Rattle.entry_views.specs.{Reading.{body_at}, RowBodies.{body_read}};

/// The fields of a body are read as that body.
pub fn bodies_are_read_back()
    ensures { (body : Body) → IsBody body → body_read (body_at (concat (body_fields body))) ≡ body }
{}
