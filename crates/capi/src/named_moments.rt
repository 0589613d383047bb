// Named moments of a session kept in lent words.
ghost use Rattle.std.specs.Prelude.{◌≡◌};
ghost use Rattle.capi_answers.specs.Answers.{counted, done};
ghost use Rattle.moments.specs.Names.{new_names};
ghost use Rattle.moments_words.specs.Calls.{name_in, return_in};

// Words in which no name is set, at the front of the row: how many.
#[unsafe(no_mangle)]
pub extern "C" fn jemqolu_names_new(names: &mut [u32]) -> i64
    ensures { (result ≡ counted (new_names names.old).answer) × (names.new ≡ (new_names names.old).buffer) }
{
    capi_answers::count(moments::new_names(names))
}

// The session in the words is put under the name: 0.
#[unsafe(no_mangle)]
pub extern "C" fn jemqolu_session_name(session: &[u32], names: &mut [u32], name: u32) -> i64
    ensures { (result ≡ done (name_in session.now names.old name).answer) × (names.new ≡ (name_in session.now names.old name).names) }
{
    capi_answers::done(moments_words::name_session(session, names, name))
}

// The session under the name comes to the front of the words: 0.
#[unsafe(no_mangle)]
pub extern "C" fn jemqolu_session_return(session: &mut [u32], names: &[u32], name: u32) -> i64
    ensures { (result ≡ done (return_in session.old names.now name).answer) × (session.new ≡ (return_in session.old names.now name).words) }
{
    capi_answers::done(moments_words::return_to(session, names, name))
}
