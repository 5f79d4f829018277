//! Finding a tenant by its name.
ghost use Rattle.std.specs.Prelude.{◌≡◌, ◌≤◌, ◌<◌, IfSome, length};
ghost use Rattle.std.specs.List.{position};
ghost use Rattle.std.specs.Str.{bytes_eq};

use replay_report::Trace;
use trace_text::Tenant;

/// The number of the first tenant with a name.
pub fn tenant_named(trace: &Trace, name: &[u8]) -> Option<u32>
    requires { length trace.now.tenants.items ≤ 256 }
    ensures exact { result ≡ position (λ tenant. bytes_eq tenant.name name.now) trace.now.tenants.items }
    ensures within { IfSome result (λ number. number < length trace.now.tenants.items) }
{
    match place_of(&trace.tenants, name) {
        Some(place) => Some(place as u32),
        None => None,
    }
}

// The place of the first tenant with a name.
fn place_of(tenants: &[Tenant], name: &[u8]) -> Option<usize>
    ensures exact { result ≡ position (λ tenant. bytes_eq tenant.name name.now) tenants.now }
    ensures within { IfSome result (λ place. place < length tenants.now) }
{
    tenants
        .iter()
        .position(|tenant| tenant.name.items.as_slice() == name)
}
