// The server's side of an IMAP conversation, from the greeting to BYE: definitions and laws, no code.
#![tactic(auto)]
