use crate::rows::Rows;
use npa_model::{asking_laws, backward_laws, cover_laws, freshness_laws, schedule_laws};
use std::test::Fail;
use test_tables::first_wrong;

// What the attack is to reach, and what stands there just before: strands exactly at their bars,
// with the values of the run, and facts that were sent.
#[test]
fn meets_the_attack_and_its_fronts(rt: HostRuntime) -> Result<(), Fail> {
    let wrong = first_wrong(
        rt.alloc(),
        &Rows {},
        "14 exactly 3 resp A=a B=b NA=n(a,#0) r=#1; known n(b,#1) => yes
13 exactly 3 resp A=a B=b NA=n(a,#0) r=#1; known n(b,#1) => no
13 exactly 2 resp A=a B=b NA=n(a,#0) r=#1; known n(b,#1) pk(b,n(b,#1)) => yes
14 exactly 2 resp A=a B=b NA=n(a,#0) r=#1 => no
14 exactly 3 resp A=a B=b NA=n(b,#0) r=#1 => no
14 exactly 3 resp A=b B=a NA=n(a,#0) r=#1 => no
14 exactly 3 resp A=a B=b NA=n(a,#0) r=#1; 3 init A=a B=i NB=n(b,#1) r=#0 => yes
8 exactly 2 resp A=a B=b NA=n(a,#0) r=#1; 2 init A=a B=i NB=n(b,#1) r=#0 => yes
9 exactly 2 resp A=a B=b NA=n(a,#0) r=#1; 2 init A=a B=i NB=n(b,#1) r=#0 => no
0 exactly 0 resp A=a B=b NA=n(a,#0) r=#1; 0 init A=a B=i NB=n(b,#1) r=#0 => yes
0 exactly known a => no
11 exactly known n(b,#1) => yes
10 exactly known n(b,#1) => no
14 exactly 0 name A=a => no",
    )?;
    assert!(&rt; wrong.is_none());
    Ok(())
}

// An unknown fact wasn't sent yet.
#[test]
fn asks_for_unknown_facts(rt: HostRuntime) -> Result<(), Fail> {
    let wrong = first_wrong(
        rt.alloc(),
        &Rows {},
        "10 exactly 2 resp A=a B=b NA=n(a,#0) r=#1; unknown n(b,#1) => yes
11 exactly 2 resp A=a B=b NA=n(a,#0) r=#1; unknown n(b,#1) => no
14 exactly unknown a b => yes
14 exactly known n(b,#1); unknown n(b,#1) => no
8 exactly known pk(i,n(b,#1)); unknown n(b,#1) => no
9 exactly known pk(i,n(b,#1)); unknown n(b,#1) => yes
10 exactly known pk(i,n(b,#1)); unknown n(b,#1) => yes
11 exactly known pk(i,n(b,#1)); unknown n(b,#1) => no",
    )?;
    assert!(&rt; wrong.is_none());
    Ok(())
}

// Strands go to different instances.
#[test]
fn keeps_instances_apart(rt: HostRuntime) -> Result<(), Fail> {
    let wrong = first_wrong(
        rt.alloc(),
        &Rows {},
        "14 exactly 3 resp A=a B=b NA=n(a,#0) r=#1; 3 resp A=a B=b NA=n(a,#0) r=#1 => no
14 exactly 2 seal A=b X=n(b,#1); 2 seal A=b X=p(n(a,#0),a) => yes
14 exactly 2 seal A=b X=n(b,#1); 2 seal A=b X=n(b,#1) => no
14 exactly 2 seal A=b X=p(n(a,#0),a); 2 unseal X=pk(i,n(b,#1)); 2 seal A=b X=n(b,#1); 2 unseal X=pk(i,p(n(a,#0),a)) => yes",
    )?;
    assert!(&rt; wrong.is_none());
    Ok(())
}

// An instance may stand behind the bar where that is asked.
#[test]
fn stands_at_a_bar_or_behind_it(rt: HostRuntime) -> Result<(), Fail> {
    let wrong = first_wrong(
        rt.alloc(),
        &Rows {},
        "14 least 2 resp A=a B=b NA=n(a,#0) r=#1 => yes
14 exactly 2 resp A=a B=b NA=n(a,#0) r=#1 => no
14 least 3 resp A=a B=b NA=n(a,#0) r=#1 => yes
13 least 3 resp A=a B=b NA=n(a,#0) r=#1 => no
14 least 0 resp A=a B=b NA=n(a,#0) r=#1; 1 init A=a B=i NB=n(b,#1) r=#0 => yes",
    )?;
    assert!(&rt; wrong.is_none());
    Ok(())
}

// Bars, parameters and fresh names; whether a pattern is initial; its symbols.
#[test]
fn tells_what_fits(rt: HostRuntime) -> Result<(), Fail> {
    let wrong = first_wrong(
        rt.alloc(),
        &Rows {},
        "fit known a => yes no 1
fit unknown a pk(a,b) => yes yes 4
fit 0 name A=a => yes yes 1
fit 1 name A=a => yes no 2
fit 2 name A=a => no no 2
fit 0 left X=a => no yes 0
fit 0 name A=pk(a,b) => no yes 3
fit 1 seal A=a X=pk(a,b) => yes no 7
fit known n(a,#0) => no no 3
fit 1 unseal X=sk(i,n(a,#0)); unknown a => no no 11",
    )?;
    assert!(&rt; wrong.is_none());
    Ok(())
}

#[test]
fn laws_do_nothing() {
    schedule_laws();
    backward_laws();
    freshness_laws();
    cover_laws();
    asking_laws();
}
