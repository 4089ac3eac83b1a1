use dvvset::ClockFault;
use meta_store::StoreFault;
use meta_types::TypeFault;

// Each fault's name is its contract's; this shows that it prints as its name.
#[test]
fn faults_print_their_names(rt: HostRuntime) {
    let (name, entries, key) = (
        TypeFault::BadName,
        ClockFault::BadEntries,
        StoreFault::WrongKey,
    );
    let printed = format!(in rt.alloc(); "{name} {entries} {key}").expect(&rt, "memory");
    assert!(rt; printed.as_str() == "BadName BadEntries WrongKey");
}
