//! What holds of all PDUs.
ghost use Rattle.std.specs.Prelude.{◌≡◌, ◌≢◌, ◌⊎◌, ◌+◌, ◌≤◌, ℕ, List, [], ◌++◌, length, Ok, Some, Err};
ghost use Rattle.rpc_pdu.specs.declared.fault.PduFault.{PduFault};
ghost use Rattle.rpc_pdu.specs.declared.pdu.Pdu.{Pdu};
ghost use Rattle.rpc_pdu.specs.Pdu.{PduFits, first_pdu, pdu_bytes, pdu_len};
ghost use Rattle.rpc_pdu.specs.Stream.{FaultAt, PdusAre};

/// The laws of the format. There is nothing to do.
pub fn laws_of_pdus()
    // What was written is read again, whatever stands behind it.
    ensures written { (place : ℕ) (pdu : Pdu) (rest : List ℕ) → PduFits pdu
        → first_pdu place (pdu_bytes pdu ++ rest) ≡ Ok (Some pdu) }
    ensures length { (pdu : Pdu) → length (pdu_bytes pdu) ≡ pdu_len pdu }

    // A PDU lies within its bytes, and stays whatever follows them. So does a fault other than Torn.
    ensures within { (place : ℕ) (bytes : List ℕ) (pdu : Pdu)
        → first_pdu place bytes ≡ Ok (Some pdu) → pdu_len pdu ≤ length bytes }
    ensures pdu_stays { (place : ℕ) (bytes more : List ℕ) (pdu : Pdu)
        → first_pdu place bytes ≡ Ok (Some pdu) → first_pdu place (bytes ++ more) ≡ Ok (Some pdu) }
    ensures fault_stays { (place : ℕ) (bytes more : List ℕ) (wrong : PduFault)
        → first_pdu place bytes ≡ Err wrong → wrong ≢ PduFault.Torn place
        → first_pdu place (bytes ++ more) ≡ Err wrong }

    // Bytes are cut into PDUs in one way, and the joined bytes of some PDUs and of more are those of all of them.
    ensures one_cut { (place : ℕ) (bytes : List ℕ) (pdus others : List Pdu)
        → PdusAre place pdus bytes → PdusAre place others bytes → pdus ≡ others }
    ensures joined { (place : ℕ) (bytes more : List ℕ) (pdus others : List Pdu)
        → PdusAre place pdus bytes → PdusAre (place + length bytes) others more
        → PdusAre place (pdus ++ others) (bytes ++ more) }

    // The bytes of a session are PDUs, or have a first fault: one, and none where they are PDUs.
    ensures judged { (bytes : List ℕ) → ((pdus : List Pdu) × PdusAre 0 pdus bytes)
        ⊎ ((wrong : PduFault) × FaultAt bytes wrong) }
    ensures one_fault { (bytes : List ℕ) (wrong other : PduFault)
        → FaultAt bytes wrong → FaultAt bytes other → wrong ≡ other }
    ensures no_fault { (bytes : List ℕ) (pdus : List Pdu) (wrong : PduFault)
        → PdusAre 0 pdus bytes → FaultAt bytes wrong → ⊥ }
{}
