//! Requests, each with its expected reply.

/// A request as a text, and its reply as a line.
pub type Step = (&'static str, &'static str);

pub const ENROL: Step = (
    r#"{"caller":"ann","key":"a1","order":"enrol","org":"acme","title":"Acme Tools","site":"https://acme.example/"}"#,
    r#"{"done":"enrolled acme"}"#,
);

/// The enrolments of o1 to o10.
pub const TEN: [Step; 10] = [
    (
        r#"{"caller":"ann","key":"k1","order":"enrol","org":"o1","title":"O","site":"https://o.example"}"#,
        r#"{"done":"enrolled o1"}"#,
    ),
    (
        r#"{"caller":"ann","key":"k2","order":"enrol","org":"o2","title":"O","site":"https://o.example"}"#,
        r#"{"done":"enrolled o2"}"#,
    ),
    (
        r#"{"caller":"ann","key":"k3","order":"enrol","org":"o3","title":"O","site":"https://o.example"}"#,
        r#"{"done":"enrolled o3"}"#,
    ),
    (
        r#"{"caller":"ann","key":"k4","order":"enrol","org":"o4","title":"O","site":"https://o.example"}"#,
        r#"{"done":"enrolled o4"}"#,
    ),
    (
        r#"{"caller":"ann","key":"k5","order":"enrol","org":"o5","title":"O","site":"https://o.example"}"#,
        r#"{"done":"enrolled o5"}"#,
    ),
    (
        r#"{"caller":"ann","key":"k6","order":"enrol","org":"o6","title":"O","site":"https://o.example"}"#,
        r#"{"done":"enrolled o6"}"#,
    ),
    (
        r#"{"caller":"ann","key":"k7","order":"enrol","org":"o7","title":"O","site":"https://o.example"}"#,
        r#"{"done":"enrolled o7"}"#,
    ),
    (
        r#"{"caller":"ann","key":"k8","order":"enrol","org":"o8","title":"O","site":"https://o.example"}"#,
        r#"{"done":"enrolled o8"}"#,
    ),
    (
        r#"{"caller":"ann","key":"k9","order":"enrol","org":"o9","title":"O","site":"https://o.example"}"#,
        r#"{"done":"enrolled o9"}"#,
    ),
    (
        r#"{"caller":"ann","key":"k10","order":"enrol","org":"o10","title":"O","site":"https://o.example"}"#,
        r#"{"done":"enrolled o10"}"#,
    ),
];

/// Each kind of order, accepted once, then a repeat, a refusal and another order under a kept key.
pub const EACH_KIND: [Step; 24] = [
    ENROL,
    (
        r#"{"caller":"ann","key":"a2","order":"amend-org","org":"acme","title":"Acme","site":"http://acme.example/"}"#,
        r#"{"done":"amended organisation acme"}"#,
    ),
    (
        r#"{"caller":"cora","key":"c1","order":"reserve","first":"2000","last":"2003"}"#,
        r#"{"done":"reserved 2000-2003"}"#,
    ),
    (
        r#"{"caller":"cora","key":"c2","order":"release","first":"2001","last":"2002"}"#,
        r#"{"done":"released 2001-2002"}"#,
    ),
    (
        r#"{"caller":"cora","key":"c3","order":"add-vendor","vendor":"cafe","name":"Second vendor"}"#,
        r#"{"done":"added vendor cafe"}"#,
    ),
    (
        r#"{"caller":"cora","key":"c4","order":"add-licence","licence":"CERN-OHL-S-2.0"}"#,
        r#"{"done":"added licence CERN-OHL-S-2.0"}"#,
    ),
    (
        r#"{"caller":"ann","key":"a3","order":"ask","org":"acme","number":"2001","title":"Lamp","licence":"MIT","site":"https://acme.example/lamp","source":"https://acme.example/src"}"#,
        r#"{"done":"petition 1"}"#,
    ),
    (
        r#"{"caller":"ann","key":"a4","order":"ask","org":"acme","title":"Lamp","licence":"CERN-OHL-S-2.0","site":"https://acme.example/lamp","source":"https://acme.example/src","vendor":"cafe"}"#,
        r#"{"done":"petition 2"}"#,
    ),
    (
        r#"{"caller":"ann","key":"a5","order":"ask","org":"acme","title":"Lamp","licence":"MIT","site":"https://acme.example/lamp","source":"https://acme.example/src"}"#,
        r#"{"done":"petition 3"}"#,
    ),
    (
        r#"{"caller":"ann","key":"a6","order":"ask","org":"acme","title":"Lamp","licence":"MIT","site":"https://acme.example/lamp","source":"https://acme.example/src"}"#,
        r#"{"done":"petition 4"}"#,
    ),
    (
        r#"{"caller":"cora","key":"c5","order":"grant","petition":1}"#,
        r#"{"done":"granted 2001 to acme by petition 1"}"#,
    ),
    (
        r#"{"caller":"cora","key":"c6","order":"grant","petition":2,"number":null}"#,
        r#"{"done":"granted cafe:0001 to acme by petition 2"}"#,
    ),
    (
        r#"{"at":"2026-11-28T20:34:13Z","caller":"cora","key":"c7","order":"decline","petition":3,"reason":"Not a product"}"#,
        r#"{"done":"declined petition 3"}"#,
    ),
    (
        r#"{"at":"2026-11-28T20:34:13Z","caller":"ann","key":"a7","order":"withdraw","petition":4}"#,
        r#"{"done":"withdrawn petition 4"}"#,
    ),
    (
        r#"{"caller":"ann","key":"a8","order":"amend","number":"2001","title":"Lamp 2","licence":"MIT","site":"https://acme.example/lamp","source":"https://acme.example/src"}"#,
        r#"{"done":"amended 2001"}"#,
    ),
    (
        r#"{"caller":"ann","key":"a9","order":"return","number":"0001","vendor":"cafe"}"#,
        r#"{"done":"returned cafe:0001"}"#,
    ),
    (
        r#"{"caller":"ann","key":"b1","order":"hand-over","org":"acme","keeper":"ben"}"#,
        r#"{"done":"handed acme over to ben"}"#,
    ),
    (
        r#"{"caller":"cora","key":"d1","order":"correct-org","org":"acme","title":"Acme Works","site":"http://acme.example/"}"#,
        r#"{"done":"corrected organisation acme"}"#,
    ),
    (
        r#"{"caller":"cora","key":"d2","order":"correct","number":"2001","title":"Lamp 3","licence":"MIT","site":"https://acme.example/lamp","source":"https://acme.example/src"}"#,
        r#"{"done":"corrected 2001"}"#,
    ),
    (
        r#"{"caller":"cora","key":"d3","order":"revoke","number":"2001","reason":"No product uses it"}"#,
        r#"{"done":"revoked 2001"}"#,
    ),
    (
        "c8 acme\n1209  x\n\t0000  Zero\n\t0001  Fixed\n\t2001  Taken\n\t0300  Probe\n\t0300  Again\n\t2000  Reserved\n\t0301\n",
        r#"{"done":"imported fresh 1, owned 1, reserved 2, doubled 1, untitled 1, zero 1"}"#,
    ),
    ENROL,
    (
        r#"{"caller":"cora","key":"c9","order":"reserve","first":"2000","last":"2001"}"#,
        r#"{"detail":"2001","name":"RangeOwned","refused":15}"#,
    ),
    (
        r#"{"caller":"ann","key":"a1","order":"return","number":"2001"}"#,
        r#"{"name":"KeyReused","refused":1}"#,
    ),
];
