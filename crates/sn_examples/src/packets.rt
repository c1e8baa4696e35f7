//! What bytes and texts are read as.
#![tactic(auto, unfolding(sn_osc::specs::Reading::arguments_at, sn_osc::specs::Reading::arguments_in, sn_osc::specs::Reading::argument_at, sn_osc::specs::Reading::blob_at, sn_osc::specs::Reading::body_in, sn_osc::specs::Reading::bundle_in, sn_osc::specs::Reading::element_at, sn_osc::specs::Reading::elements_in, sn_osc::specs::Reading::message_in, sn_osc::specs::Reading::packet_in, sn_osc::specs::Reading::packet_or, sn_osc::specs::Reading::read, sn_osc::specs::Reading::string_at, sn_osc::specs::Reading::tags_at))]

ghost use Rattle.std.specs.Prelude.{◌≡◌, [], ◌∷◌, ◌++◌, Ok, Err, pos, neg_ℤ, codes};
ghost use Rattle.sn_osc.specs.declared.fault.PacketKind.TheVariants as faults;
ghost use Rattle.sn_osc.specs.Shape.{int, arguments, bare, message, bundle, none, more};
ghost use Rattle.sn_osc.specs.Reading.{read};

/// The 16 bytes of `/c_set 3 -2`: the address, the tags, and two numbers.
pub fn message_bytes()
    ensures { read (codes "/c_set" ++ 0 ∷ 0 ∷ codes ",ii" ++ 0 ∷ 0 ∷ 0 ∷ 0 ∷ 3 ∷ 255 ∷ 255 ∷ 255 ∷ 254 ∷ [])
        ≡ Ok (message (record { address = codes "/c_set"; body = arguments (int (pos 3) ∷ int (neg_ℤ (pos 2)) ∷ []) })) }
{}

/// An address alone has no tags.
pub fn bare_bytes()
    ensures { read (codes "/status" ++ 0 ∷ []) ≡ Ok (message (record { address = codes "/status"; body = bare })) }
{}

/// Padding that isn't null is a fault, at its place, and so is a packet whose size isn't a multiple of 4.
pub fn bad_bytes()
    ensures padding { read (codes "/sync" ++ 0 ∷ 0 ∷ 1 ∷ []) ≡ Err (record { kind = faults.Padding; place = 7 }) }
    ensures size { read (codes "/sync" ++ 0 ∷ []) ≡ Err (record { kind = faults.Size; place = 0 }) }
    ensures start { read (codes "sync") ≡ Err (record { kind = faults.Start; place = 0 }) }
{}

/// A bundle of one message: its head, its time tag, the size of the message, and the message.
pub fn bundle_bytes()
    ensures { read (codes "#bundle" ++ 0 ∷ 0 ∷ 0 ∷ 0 ∷ 0 ∷ 0 ∷ 0 ∷ 0 ∷ 1 ∷ 0 ∷ 0 ∷ 0 ∷ 8 ∷ codes "/status" ++ 0 ∷ [])
        ≡ Ok (bundle 1 (more (message (record { address = codes "/status"; body = bare })) none)) }
{}
