//! The SQL that is the same for all rules.

/// What stands at the head: one transaction, into the first schema of the search path. Functions keep that path, with
/// temporary tables behind it, so that none of these is ever taken for a table of the rules. The bytes of texts are
/// UTF-8, whatever the client's locale says.
pub const HEAD: &str =
    r#"-- Tables, rows and rules for PostgreSQL 15 or later, as skewguard postgresql prints them.
-- Load them into an empty schema, the first of the search path: psql -v ON_ERROR_STOP=1 -f FILE
BEGIN;
SET LOCAL client_encoding = 'UTF8';
SELECT set_config('search_path', quote_ident(current_schema()) || ', pg_temp', true);
"#;

/// What every rule's check calls.
pub const HELPERS: &str = r#"
-- A root as SQL writes it.
CREATE FUNCTION skewguard_written(root bigint) RETURNS text
LANGUAGE sql IMMUTABLE AS $skewguard$ SELECT COALESCE(root::text, 'NULL') $skewguard$;
CREATE FUNCTION skewguard_written(root text) RETURNS text
LANGUAGE sql IMMUTABLE AS $skewguard$ SELECT COALESCE('''' || replace(root, '''', '''''') || '''', 'NULL') $skewguard$;

-- Refuses a statement or a COMMIT: the rule is the CONSTRAINT of the error, and its least bad root the DETAIL.
CREATE FUNCTION skewguard_refuse(rule text, root text) RETURNS void
LANGUAGE plpgsql AS $skewguard$
BEGIN
    RAISE EXCEPTION USING ERRCODE = '23000', CONSTRAINT = rule, DETAIL = root,
        MESSAGE = rule || ' is violated at ' || root;
END
$skewguard$;

-- A check reads its transaction's snapshot. What another transaction changes meanwhile is met under SERIALIZABLE alone.
CREATE FUNCTION skewguard_require_serializable() RETURNS void
LANGUAGE plpgsql AS $skewguard$
BEGIN
    IF current_setting('transaction_isolation') <> 'serializable' THEN
        RAISE EXCEPTION USING ERRCODE = '25000',
            MESSAGE = 'tables under rules are changed in SERIALIZABLE transactions alone',
            DETAIL = 'At any other isolation level two transactions can keep a rule each and break it together.',
            HINT = 'BEGIN ISOLATION LEVEL SERIALIZABLE, or set default_transaction_isolation.';
    END IF;
END
$skewguard$;

-- A row keeps its key: it is put in anew under another one.
CREATE FUNCTION skewguard_refuse_key() RETURNS trigger
LANGUAGE plpgsql AS $skewguard$
BEGIN
    RAISE EXCEPTION USING ERRCODE = '0A000', MESSAGE = 'the key of ' || TG_TABLE_NAME || ' is not updated';
END
$skewguard$;

-- TRUNCATE tells no trigger what it takes out.
CREATE FUNCTION skewguard_refuse_truncate() RETURNS trigger
LANGUAGE plpgsql AS $skewguard$
BEGIN
    RAISE EXCEPTION USING ERRCODE = '0A000', MESSAGE = 'TRUNCATE of ' || TG_TABLE_NAME || ' is not checked',
        HINT = 'DELETE its rows.';
END
$skewguard$;
"#;

/// What calls deferrable rules.
///
/// PostgreSQL defers constraint triggers alone, and these are for each row; SET CONSTRAINTS goes by their names. So a
/// deferrable rule is called by a row in a table on which its constraint trigger stands. A row of batch 0 asks for the
/// rule's mode: where that is immediate the trigger fires at once, and the rule is checked like any other. Where it is
/// deferred its candidates are noted, each once a transaction, and the trigger checks all that is noted when
/// PostgreSQL calls it, by SET CONSTRAINTS or at COMMIT. A trigger for each changed row would check a group as often as
/// its rows change, and would know one root, not the least.
///
/// The notes are in a temporary table: of a table that all share, a transaction's look at its notes would meet every
/// other transaction's under SERIALIZABLE. A check takes its notes out, so none is left at COMMIT; the table is not
/// emptied by ON COMMIT DELETE ROWS, which cuts its file and took some 15 ms. The row of a call is taken out again at
/// once, by its place, and no one ever reads it.
///
/// When a rule is noted that was not, all noted rules are called in one batch, in the order of their creation, and
/// calls of earlier batches do nothing. So COMMIT checks them in that order, whichever was noted first.
///
/// Notes, calls and totals belong to the owner of the rules, whose rights the functions have: who may change a table
/// under rules may not change these. A call names the notes that it is for, so that none passes after DISCARD TEMP.
pub const CALLS: &str = r#"
-- Deferrable rules: their calls, whose order and time are those of the constraint triggers below.
CREATE UNLOGGED TABLE skewguard_due (rule integer NOT NULL, batch bigint NOT NULL, notes oid);

CREATE FUNCTION skewguard_open_notes() RETURNS void
LANGUAGE plpgsql AS $skewguard$
BEGIN
    IF NOT EXISTS (SELECT FROM pg_catalog.pg_class AS c
            WHERE c.oid = to_regclass('pg_temp.skewguard_notes') AND c.relowner = current_user::regrole) THEN
        CREATE TEMPORARY TABLE skewguard_notes (
            rules oid NOT NULL, rule integer NOT NULL, number bigint, word text COLLATE "C",
            UNIQUE NULLS NOT DISTINCT (rules, rule, number, word)
        );
    END IF;
END
$skewguard$;

-- Calls a rule: its trigger fires now or later, as its mode is.
CREATE FUNCTION skewguard_call(rule integer, batch bigint) RETURNS void
LANGUAGE plpgsql SET search_path FROM CURRENT AS $skewguard$
DECLARE
    place tid;
BEGIN
    INSERT INTO skewguard_due AS d VALUES (rule, batch, to_regclass('pg_temp.skewguard_notes'))
        RETURNING d.ctid INTO place;
    DELETE FROM skewguard_due AS d WHERE d.ctid = place;
END
$skewguard$;

-- Whether a rule is immediate: whether a call of batch 0 fires its trigger at once.
CREATE FUNCTION skewguard_is_immediate(rule integer) RETURNS boolean
LANGUAGE plpgsql SET search_path FROM CURRENT AS $skewguard$
BEGIN
    PERFORM set_config('skewguard.fired', 'no', true);
    PERFORM skewguard_call(rule, 0);
    RETURN current_setting('skewguard.fired') = 'yes';
END
$skewguard$;

-- Whether something is noted of a rule. It is deferred then, and its trigger waits.
CREATE FUNCTION skewguard_is_noted(of_rule integer) RETURNS boolean
LANGUAGE plpgsql SET search_path FROM CURRENT AS $skewguard$
BEGIN
    IF to_regclass('pg_temp.skewguard_notes') IS NULL THEN
        RETURN false;
    END IF;
    PERFORM skewguard_open_notes();
    RETURN EXISTS (SELECT FROM pg_temp.skewguard_notes AS n
        WHERE n.rules = 'skewguard_due'::regclass AND n.rule = of_rule);
END
$skewguard$;

-- Calls all noted rules in the next batch, whose number stands among the notes as that of rule 0.
CREATE FUNCTION skewguard_call_noted() RETURNS void
LANGUAGE plpgsql SET search_path FROM CURRENT AS $skewguard$
DECLARE
    batch bigint;
    noted record;
BEGIN
    UPDATE pg_temp.skewguard_notes AS n SET number = n.number + 1
        WHERE n.rules = 'skewguard_due'::regclass AND n.rule = 0 RETURNING n.number INTO batch;
    IF NOT FOUND THEN
        batch := 1;
        INSERT INTO pg_temp.skewguard_notes (rules, rule, number) VALUES ('skewguard_due'::regclass, 0, batch);
    END IF;
    FOR noted IN SELECT DISTINCT n.rule FROM pg_temp.skewguard_notes AS n
            WHERE n.rules = 'skewguard_due'::regclass AND n.rule > 0 ORDER BY n.rule LOOP
        PERFORM skewguard_call(noted.rule, batch);
    END LOOP;
END
$skewguard$;

-- Whether a call that has fired is one to check by: of the newest batch. One of batch 0 says that the rule is immediate.
CREATE FUNCTION skewguard_is_newest(call skewguard_due) RETURNS boolean
LANGUAGE plpgsql SET search_path FROM CURRENT AS $skewguard$
BEGIN
    IF call.batch = 0 THEN
        PERFORM set_config('skewguard.fired', 'yes', true);
        RETURN false;
    END IF;
    IF call.notes IS DISTINCT FROM to_regclass('pg_temp.skewguard_notes')::oid THEN
        RAISE EXCEPTION USING ERRCODE = '55000', MESSAGE = 'the notes of deferred rules are gone',
            HINT = 'DISCARD TEMP takes them away: use it between transactions.';
    END IF;
    RETURN call.batch = (SELECT n.number FROM pg_temp.skewguard_notes AS n
        WHERE n.rules = 'skewguard_due'::regclass AND n.rule = 0);
END
$skewguard$;
"#;

/// What stands at the end: the rules hold on the rows as PostgreSQL evaluates them too. A trigger of one's own on a
/// table of one's own could otherwise hand rows to a function that changes totals.
pub const END: &str = r#"
-- The functions of the triggers have the rights of the rules' owner: nobody else puts them on a table of his own.
DO $skewguard$
DECLARE
    found record;
BEGIN
    FOR found IN SELECT p.oid::regprocedure AS name FROM pg_proc AS p WHERE p.prosecdef
            AND p.pronamespace = quote_ident(current_schema())::regnamespace
            AND starts_with(p.proname, 'skewguard_') LOOP
        EXECUTE format('REVOKE EXECUTE ON FUNCTION %s FROM PUBLIC', found.name);
    END LOOP;
    FOR found IN SELECT v.rule, v.root FROM skewguard_verdicts AS v WHERE NOT v.verdict ORDER BY v.place LOOP
        PERFORM skewguard_refuse(found.rule, found.root);
    END LOOP;
END
$skewguard$;
COMMIT;
"#;
