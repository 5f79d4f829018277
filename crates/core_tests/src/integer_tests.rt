ghost use Rattle.std.specs.Prelude.{◌≡◌};

use fn_model::{Call, Kind, after, after_capped, before, before_capped, value, value_capped};

fn call(pass: u32, kind: Kind, amount: u64) -> Call
    ensures { result ≡ record { pass = pass; number = 0; kind = kind; amount = amount } }
{
    Call {
        pass,
        number: 0,
        kind,
        amount,
    }
}

#[test]
fn additions_meet_the_sum_before_them(rt: HostRuntime) {
    let calls = [
        call(0, Kind::Add, 5),
        call(1, Kind::Add, 7),
        call(2, Kind::Add, 1),
    ];
    assert_eq!(rt; before(10, &calls, 0), 10);
    assert_eq!(rt; before(10, &calls, 1), 15);
    assert_eq!(rt; before(10, &calls, 2), 22);
    assert_eq!(rt; value(10, &calls), 23);
}

#[test]
fn subtractions_stop_at_zero(rt: HostRuntime) {
    let calls = [
        call(0, Kind::Sub, 4),
        call(1, Kind::Sub, 4),
        call(0, Kind::Read, 0),
    ];
    assert_eq!(rt; before(6, &calls, 0), 6);
    assert_eq!(rt; before(6, &calls, 1), 2);
    assert_eq!(rt; before(6, &calls, 2), 0);
    assert_eq!(rt; value(6, &calls), 0);
}

#[test]
fn additions_stop_at_the_cap(rt: HostRuntime) {
    let calls = [
        call(0, Kind::Add, 5),
        call(1, Kind::Add, 7),
        call(2, Kind::Sub, 3),
    ];
    assert_eq!(rt; before_capped(20, 10, &calls, 1), 15);
    assert_eq!(rt; before_capped(20, 10, &calls, 2), 20);
    assert_eq!(rt; value_capped(20, 10, &calls), 17);
    assert_eq!(rt;
        after(9223372036854775806, Kind::Add, 1),
        9223372036854775807
    );
    assert_eq!(rt; after_capped(7, 7, Kind::Add, 1), 7);
}
